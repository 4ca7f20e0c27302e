//! Arrays of arrays (JVMS 6.5 multianewarray).

ghost use Rattle.std.specs.Prelude.{◌≡◌, ◌+◌, ◌*◌, ◌<◌, ◌≤◌, ◌^◌, ◌∷◌, [], IfOk, OnOk, OnErr, drop, length, map, replicate};
ghost use Rattle.jvms_machine.specs.declared.value.Value.TheVariants as value;
ghost use Rattle.jvms_machine.specs.State.{array};
ghost use Rattle.jvms_machine.specs.Heap.{component_type, first_element, arrays_made, elements_made, part_references, new_arrays, next_reference};
ghost use Rattle.array_elements.specs.declared.kind.Kind.TheVariants as kind;
ghost use Rattle.array_elements.specs.Kinds.{kind_of};
ghost use Rattle.heap.specs.Objects.{HasDimensions, with_arrays};
ghost use Rattle.heap.specs.Arrays.{IsArray, AppendsArrays};

use crate::heap::Heap;
use crate::stored_object::StoredObject;
use array_elements::{Elements, component, kind_of_array};
use shared_data::shared::Text;
use shared_data::texts::copied_text;
use std::alloc::{AllocError, Global};

/// Returns the number of arrays in a nested array of these lengths, the outermost first.
#[tactic(auto, using(crate::proofs::ArrayLaws::one_made, crate::proofs::ArrayLaws::none_made, crate::proofs::ArrayLaws::many_made, crate::proofs::ArrayLaws::part_fits_made))]
fn arrays_made(lengths: &[u32]) -> usize
    requires { arrays_made lengths.now ≤ 2 ^ 32 }
    ensures { result ≡ arrays_made lengths.now }
{
    match lengths {
        [] => 0,
        [n, rest @ ..] => {
            if *n == 0 || rest.len() == 0 {
                1
            } else {
                1 + *n as usize * arrays_made(rest)
            }
        }
    }
}

/// Returns the number of elements in a nested array of these lengths, over all its arrays.
#[tactic(auto, using(crate::proofs::ArrayLaws::own_elements, crate::proofs::ArrayLaws::no_elements, crate::proofs::ArrayLaws::many_elements, crate::proofs::ArrayLaws::part_fits_elements))]
fn elements_made(lengths: &[u32]) -> u32
    requires { elements_made lengths.now < 2 ^ 32 }
    ensures { result ≡ elements_made lengths.now }
{
    match lengths {
        [] => 0,
        [n, rest @ ..] => {
            if *n == 0 || rest.len() == 0 {
                *n
            } else {
                *n + *n * elements_made(rest)
            }
        }
    }
}

/// Returns the references of `count` parts, each of which takes `size` references.
#[tactic(auto, using(crate::proofs::ArrayLaws::parts_start, crate::proofs::ArrayLaws::part_below, crate::proofs::ArrayLaws::parts_more))]
fn part_references(
    alloc: Global,
    first: usize,
    size: usize,
    count: u32,
) -> Result<Vec<u32>, AllocError>
    requires room { first + count * size ≤ 2 ^ 32 }
    requires some { 0 < size }
    ensures { IfOk result (λ v. v.items ≡ part_references first size count) }
{
    let mut references = Vec::new(alloc);
    let mut next = first;
    for part in 0..count {
        references.push(next as u32)?;
        next += size;
    }
    Ok(references)
}

/// Creates an array with the first value for each of its elements.
fn first_array(alloc: Global, class: &Text, length: u32) -> Result<StoredObject, AllocError>
    requires { length < 2 ^ 31 }
    ensures { IfOk result
        (λ o. IsArray o (array class.now (replicate length (first_element class.now)))) }
{
    let kind = kind_of_array(class.as_slice());
    let elements = Elements::new(alloc, kind, length)?;
    let class = class.share()?;
    Ok(StoredObject::Array { class, elements })
}

/// Creates an array of parts.
#[tactic(auto, using(crate::proofs::ArrayLaws::references_shown))]
fn array_of_parts(
    alloc: Global,
    class: &Text,
    first: usize,
    size: usize,
    count: u32,
) -> Result<StoredObject, AllocError>
    requires room { first + count * size ≤ 2 ^ 32 }
    requires some { 0 < size }
    requires over { 0 < first }
    requires few { count < 2 ^ 31 }
    requires references { kind_of (component_type class.now) ≡ kind.Reference }
    ensures { IfOk result (λ o. IsArray o
        (array class.now (map value.Reference (part_references first size count)))) }
{
    let references = part_references(alloc, first, size, count)?;
    let class = class.share()?;
    Ok(StoredObject::Array {
        class,
        elements: Elements::References(references),
    })
}

/// Returns the class of the components of an array.
fn component_class(alloc: Global, class: &Text) -> Result<Text, AllocError>
    ensures { IfOk result (λ t. t ≡ drop 1 class.now) }
{
    copied_text(alloc, component(class.as_slice()))
}

/// Appends an array of these lengths with this reference, followed by its parts. On an error some may have been
/// appended.
fn make_arrays(
    alloc: Global,
    made: &mut Vec<StoredObject>,
    reference: usize,
    class: &Text,
    count: u32,
    rest: &[u32],
) -> Result<(), AllocError>
    requires room { reference + arrays_made (count ∷ rest.now) ≤ 2 ^ 32 }
    requires few { elements_made (count ∷ rest.now) < 2 ^ 31 }
    requires dimensions { HasDimensions class.now (count ∷ rest.now) }
    ensures { OnOk result (AppendsArrays made.old.items made.new.items
        (new_arrays reference class.now (count ∷ rest.now))) }
{
    let Some((next_count, more)) = rest.split_first() else {
        made.push(first_array(alloc, class, count)?)?;
        return Ok(());
    };
    if count == 0 {
        made.push(first_array(alloc, class, count)?)?;
        return Ok(());
    }
    let size = arrays_made(rest);
    made.push(array_of_parts(alloc, class, reference + 1, size, count)?)?;
    let component = component_class(alloc, class)?;
    let mut next = reference + 1;
    for part in 0..count {
        make_arrays(alloc, made, next, &component, *next_count, more)?;
        next += size;
    }
    Ok(())
}

/// Creates an array of these lengths with this reference, followed by its parts. Without lengths there is none.
#[tactic(auto, using(crate::proofs::ArrayLaws::none_of_none, crate::proofs::ArrayLaws::made_of_some))]
fn made_arrays(
    alloc: Global,
    reference: usize,
    class: &Text,
    lengths: &[u32],
) -> Result<Vec<StoredObject>, AllocError>
    requires room { reference + arrays_made lengths.now ≤ 2 ^ 32 }
    requires few { elements_made lengths.now < 2 ^ 31 }
    requires dimensions { HasDimensions class.now lengths.now }
    ensures { IfOk result
        (λ v. AppendsArrays [] v.items (new_arrays reference class.now lengths.now)) }
{
    let mut made = Vec::new(alloc);
    let Some((count, rest)) = lengths.split_first() else {
        return Ok(made);
    };
    make_arrays(alloc, &mut made, reference, class, *count, rest)?;
    Ok(made)
}

impl Heap<'_> {
    /// Creates an array of these lengths, with its parts. Without memory nothing changes.
    pub fn new_arrays(&mut self, class: &Text, lengths: &[u32]) -> Result<(), AllocError>
        requires objects { length self.old.objects + arrays_made lengths.now < 2 ^ 32 }
        requires elements { self.old.elements + elements_made lengths.now < 2 ^ 31 }
        requires dimensions { HasDimensions class.now lengths.now }
        ensures ok { OnOk result (self.new
            ≡ with_arrays (new_arrays (next_reference self.old.objects) class.now lengths.now)
            (elements_made lengths.now) self.old) }
        ensures err { OnErr result (self.new ≡ self.old) }
    {
        let reference = self.objects.as_slice().len() + 1;
        let mut made = made_arrays(self.alloc, reference, class, lengths)?;
        self.objects.append(&mut made)?;
        self.elements += elements_made(lengths);
        Ok(())
    }
}
