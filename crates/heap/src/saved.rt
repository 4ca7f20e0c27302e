//! Saves heaps. They share the objects that did not change from one to the next.

ghost use Rattle.std.specs.Prelude.{◌≡◌, true, IfOk, map};
ghost use Rattle.std.specs.List.{AllByRecursion, flat_map};
ghost use Rattle.heap.specs.Stored.{object_of, AllAlike, IsKept};

use crate::copying::{copied, push_copies};
use crate::heap::Heap;
use crate::primitive_arrays::PrimitiveArrays;
use crate::stored_object::StoredObject;
use program::Program;
use shared_data::items::Items;
use shared_data::shared::Shared;
use std::alloc::{AllocError, Global};
use std::marker::Model;
use text_index::Index;

/// The number of objects of a group. The last group of a heap may have fewer.
const GROUP_SIZE: usize = 16;

/// Objects with consecutive references. Several saved heaps can share them.
type Group = Shared<Items<StoredObject>>;

/// The objects of a heap at one moment. Heaps saved one after another share the objects that did not change
/// between them. Contracts see the heap itself.
#[derive(Drop)]
pub struct SavedHeap<'p> {
    alloc: Global,
    program: &'p Program,
    groups: Vec<Group>,
    elements: u32,
    texts: Index,
    class_objects: Index,
}

impl<'p> Model for SavedHeap<'p> {
    ghost use Rattle.std.specs.Prelude.{map};
    ghost use Rattle.std.specs.List.{flat_map};
    ghost use Rattle.heap.specs.Objects.{Heap as Seen};
    ghost use Rattle.heap.specs.Stored.{object_of, AreStored};

    ghost Value = { Seen };

    ghost view = { λ h. record {
      program = h.program.now;
      objects = map (object_of h.program.now) (flat_map (λ g. g) h.groups.items);
      elements = h.elements;
    } };

    ghost invariant = { λ h. AreStored h.program.now
        (flat_map (λ g. g) h.groups.items) h.texts h.class_objects };
}

/// Returns true only if two lists have the same objects, in the same order.
fn are_same(objects: &[StoredObject], others: &[StoredObject]) -> bool
    ensures { result ≡ true → AllAlike objects.now others.now }
{
    match (objects.split_first(), others.split_first()) {
        (None, None) => true,
        (Some((object, objects)), Some((other, others))) => {
            object.is_same(other) && are_same(objects, others)
        }
        _ => false,
    }
}

/// Saves the objects of a group. A group that has the same objects already is shared.
fn saved_group(
    alloc: Global,
    program: &Program,
    objects: &[StoredObject],
    before: Option<&Group>,
) -> Result<Group, AllocError>
    requires { AllByRecursion (IsKept program.now) objects.now }
    ensures shown { IfOk result
        (λ group. map (object_of program.now) group ≡ map (object_of program.now) objects.now) }
    ensures kept { IfOk result (λ group. AllByRecursion (IsKept program.now) group) }
{
    if let Some(group) = before {
        if are_same(objects, group.as_slice()) {
            return group.share();
        }
    }
    let copies = copied(alloc, program, objects)?;
    Shared::new(alloc, Items::from_vec(copies))
}

/// Saves objects in groups. A group is shared with the one of its place among those saved before, if it has the
/// same objects.
fn saved_groups(
    alloc: Global,
    program: &Program,
    objects: &[StoredObject],
    before: &[Group],
) -> Result<Vec<Group>, AllocError>
    requires { AllByRecursion (IsKept program.now) objects.now }
    ensures shown { IfOk result
        (λ groups. map (object_of program.now) (flat_map (λ g. g) groups.items)
        ≡ map (object_of program.now) objects.now) }
    ensures kept { IfOk result
        (λ groups. AllByRecursion (IsKept program.now) (flat_map (λ g. g) groups.items)) }
{
    let mut groups = Vec::with_capacity(alloc, objects.len().div_ceil(GROUP_SIZE))?;
    let mut rest = objects;
    while !rest.is_empty() {
        let (first, others) = rest.split_at(rest.len().min(GROUP_SIZE));
        groups.push(saved_group(alloc, program, first, before.get(groups.len()))?)?;
        rest = others;
    }
    Ok(groups)
}

/// Copies the objects of saved groups.
fn restored(
    alloc: Global,
    program: &Program,
    groups: &[Group],
) -> Result<Vec<StoredObject>, AllocError>
    requires { AllByRecursion (IsKept program.now) (flat_map (λ g. g) groups.now) }
    ensures shown { IfOk result (λ objects. map (object_of program.now) objects.items
        ≡ map (object_of program.now) (flat_map (λ g. g) groups.now)) }
    ensures kept { IfOk result (λ objects. AllByRecursion (IsKept program.now) objects.items) }
{
    let mut objects = Vec::with_capacity(alloc, groups.len().saturating_mul(GROUP_SIZE))?;
    for group in groups {
        push_copies(alloc, program, group.as_slice(), &mut objects)?;
    }
    Ok(objects)
}

/// Returns the groups of a saved heap, or none.
fn groups_of<'a>(saved: Option<&'a SavedHeap<'_>>) -> &'a [Group] {
    match saved {
        Some(saved) => saved.groups.as_slice(),
        None => &[],
    }
}

impl<'p> Heap<'p> {
    /// Saves the heap. Objects that are as in an earlier saved heap, in groups, are shared with it.
    pub fn save(&self, before: Option<&SavedHeap<'p>>) -> Result<SavedHeap<'p>, AllocError>
        ensures { IfOk result (λ saved. saved ≡ self.now) }
    {
        let before = groups_of(before);
        Ok(SavedHeap {
            alloc: self.alloc,
            program: self.program,
            groups: saved_groups(self.alloc, self.program, self.objects.as_slice(), before)?,
            elements: self.elements,
            texts: self.texts.copy()?,
            class_objects: self.class_objects.copy()?,
        })
    }
}

impl<'p> SavedHeap<'p> {
    /// Creates a heap with the saved objects.
    pub fn restore(&self) -> Result<Heap<'p>, AllocError>
        ensures { IfOk result (λ heap. heap ≡ self.now) }
    {
        Ok(Heap {
            alloc: self.alloc,
            program: self.program,
            objects: restored(self.alloc, self.program, self.groups.as_slice())?,
            elements: self.elements,
            texts: self.texts.copy()?,
            class_objects: self.class_objects.copy()?,
            primitive_arrays: PrimitiveArrays::new(self.alloc)?,
        })
    }
}
