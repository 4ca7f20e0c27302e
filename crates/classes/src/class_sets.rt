//! The numbers of the classes in each class's ancestry. They are computed for all classes in one pass, each after its
//! superclass and its superinterfaces. The sets share what they have in common, so a long chain of classes takes little
//! more memory than a short one.

ghost use Rattle.std.specs.Prelude.{◌≡◌, ◌||◌, ◌/◌, ◌%◌, ◌^◌, ◌<◌, ◌++◌, ◌==◌, ℕ, IfOk, IfSome, List, nat_eq, true};
ghost use Rattle.std.specs.Int.{bit_at};
ghost use Rattle.std.specs.Option.{option_map};
ghost use Rattle.classes.specs.Ancestors.{AreAncestorSets, AreTrees, HasNumbersOf, IsUnionOf, are_known, has_number, root_at, set_at};
ghost use Rattle.classes.specs.PersistentArrays.{HasZeros, IsTree};

use crate::list::Classes;
use crate::persistent_arrays::PersistentArrays;
use jvms_program::number::ClassNumber;
use std::alloc::{AllocError, Global};

/// The greatest number of steps in which all sets are made, so that they take no more time and memory than that.
const MOST_STEPS: usize = 4_194_304;

/// The sets of a program's classes. Some classes of a very wide and deep hierarchy have none.
#[derive(Drop)]
pub struct AncestorSets {
    arrays: PersistentArrays,
    /// The root of each class's set.
    roots: Vec<Option<u32>>,
}

/// Returns the root of the set of the class of a number.
fn root_at(roots: &[Option<u32>], class: ClassNumber) -> Option<u32>
    ensures { result ≡ root_at roots.now class }
{
    *roots.get(class)?
}

/// Returns whether a bit of an item is set.
fn has_bit(item: u32, bit: usize) -> bool
    requires { bit < 32 }
    ensures { result ≡ (bit_at item bit == 1) }
{
    (item >> bit) & 1 == 1
}

/// Returns whether the set of a root has a number.
fn has_number(arrays: &PersistentArrays, root: u32, number: usize) -> bool
    ensures { result ≡ has_number arrays.now.nodes.items arrays.now.levels root number }
{
    has_bit(arrays.item(root, number / 32), number % 32)
}

/// Adds a number to the set of a root, and returns the root of the new set.
fn with_number(arrays: &mut PersistentArrays, root: u32, number: usize) -> Result<u32, AllocError>
    requires tree { IsTree arrays.old.nodes.items arrays.old.levels root }
    requires index { number / 32 < 4 ^ arrays.old.levels }
    ensures levels { arrays.new.levels ≡ arrays.old.levels }
    ensures more { IfOk result (λ _. (more : List (List ℕ))
        × (arrays.new.nodes.items ≡ arrays.old.nodes.items ++ more)) }
    ensures tree { IfOk result (IsTree arrays.new.nodes.items arrays.new.levels) }
    ensures numbers { IfOk result (λ new. (n : ℕ) → n / 32 < 4 ^ arrays.old.levels
        → has_number arrays.new.nodes.items arrays.old.levels new n
        ≡ (nat_eq n number || has_number arrays.old.nodes.items arrays.old.levels root n)) }
{
    let item = arrays.item(root, number / 32) | 1 << (number % 32);
    arrays.with_item(root, number / 32, item)
}

/// Returns the root of a set that has what the sets of these classes have, if each has its set and the steps that are
/// left are enough.
fn union_of(
    arrays: &mut PersistentArrays,
    steps: &mut usize,
    roots: &[Option<u32>],
    supers: &[usize],
) -> Result<Option<u32>, AllocError>
    requires zeros { HasZeros arrays.old.nodes.items }
    requires trees { AreTrees arrays.old.nodes.items arrays.old.levels roots.now }
    ensures levels { arrays.new.levels ≡ arrays.old.levels }
    ensures more { IfOk result (λ _. (more : List (List ℕ))
        × (arrays.new.nodes.items ≡ arrays.old.nodes.items ++ more)) }
    ensures tree { IfOk result (λ root. IfSome root (IsTree arrays.new.nodes.items arrays.new.levels)) }
    ensures known { IfOk result (λ root. IfSome root (λ _. are_known roots.now supers.now ≡ true)) }
    ensures numbers { IfOk result (λ root. IfSome root (λ root.
        HasNumbersOf arrays.old.nodes.items arrays.old.levels roots.now supers.now
        (has_number arrays.new.nodes.items arrays.old.levels root))) }
{
    let mut union = 0;
    for other in supers {
        let Some(other) = root_at(roots, *other) else {
            return Ok(None);
        };
        match arrays.union(steps, union, other)? {
            Some(root) => union = root,
            None => return Ok(None),
        }
    }
    Ok(Some(union))
}

/// Returns the root of the set of a class, if the steps that are left are enough. It has the class itself, and what the
/// sets of its superclass and its superinterfaces have.
fn set_of(
    arrays: &mut PersistentArrays,
    steps: &mut usize,
    roots: &[Option<u32>],
    class: ClassNumber,
    supers: &[usize],
) -> Result<Option<u32>, AllocError>
    requires zeros { HasZeros arrays.old.nodes.items }
    requires trees { AreTrees arrays.old.nodes.items arrays.old.levels roots.now }
    requires index { class / 32 < 4 ^ arrays.old.levels }
    ensures levels { arrays.new.levels ≡ arrays.old.levels }
    ensures more { IfOk result (λ _. (more : List (List ℕ))
        × (arrays.new.nodes.items ≡ arrays.old.nodes.items ++ more)) }
    ensures tree { IfOk result (λ root. IfSome root (IsTree arrays.new.nodes.items arrays.new.levels)) }
    ensures known { IfOk result (λ root. IfSome root (λ _. are_known roots.now supers.now ≡ true)) }
    ensures union { IfOk result (λ root. IfSome root (λ root.
        IsUnionOf arrays.old.nodes.items arrays.old.levels roots.now class supers.now
        (has_number arrays.new.nodes.items arrays.old.levels root))) }
{
    match union_of(arrays, steps, roots, supers)? {
        Some(root) => Ok(Some(with_number(arrays, root, class)?)),
        None => Ok(None),
    }
}

/// Returns the sets of all classes.
pub fn ancestor_sets(alloc: Global, program: &Classes) -> Result<AncestorSets, AllocError>
    ensures { IfOk result (AreAncestorSets program.now) }
{
    let ranked = program.ranked();
    let count = ranked.classes.len();
    let mut steps = MOST_STEPS;
    let mut arrays = PersistentArrays::new(alloc, count / 32 + 1)?;
    let mut roots = Vec::new(alloc);
    roots.resize(count, None)?;
    for place in 0..ranked.order.len() {
        let at = ranked.order[place];
        let supers = ranked.supers[at].as_slice();
        let root = set_of(&mut arrays, &mut steps, roots.as_slice(), at, supers)?;
        roots[at] = root;
    }
    Ok(AncestorSets { arrays, roots })
}

impl AncestorSets {
    /// Returns whether the set of a class has a number, if the class has its set.
    pub fn has(&self, class: ClassNumber, number: ClassNumber) -> Option<bool>
        ensures { result ≡ option_map (λ set. set number) (set_at self.now class) }
    {
        let root = root_at(self.roots.as_slice(), class)?;
        Some(has_number(&self.arrays, root, number))
    }
}
