//! Copies a heap.

ghost use Rattle.std.specs.Prelude.{◌≡◌, ◌++◌, IfOk, OnOk, map};
ghost use Rattle.std.specs.List.{AllByRecursion};
ghost use Rattle.heap.specs.Stored.{object_of, IsKept};

use crate::heap::Heap;
use crate::primitive_arrays::PrimitiveArrays;
use crate::stored_object::StoredObject;
use program::Program;
use std::alloc::{AllocError, Global};

/// Appends copies of objects.
pub(crate) fn push_copies(
    alloc: Global,
    program: &Program,
    objects: &[StoredObject],
    copies: &mut Vec<StoredObject>,
) -> Result<(), AllocError>
    requires objects { AllByRecursion (IsKept program.now) objects.now }
    requires copies { AllByRecursion (IsKept program.now) copies.old.items }
    ensures shown { OnOk result (map (object_of program.now) copies.new.items
        ≡ map (object_of program.now) copies.old.items ++ map (object_of program.now) objects.now) }
    ensures kept { OnOk result (AllByRecursion (IsKept program.now) copies.new.items) }
{
    // Only for the proof: the objects are of this program.
    let _ = program;
    for object in objects {
        copies.push(object.copy(alloc)?)?;
    }
    Ok(())
}

/// Copies objects.
pub(crate) fn copied(
    alloc: Global,
    program: &Program,
    objects: &[StoredObject],
) -> Result<Vec<StoredObject>, AllocError>
    requires { AllByRecursion (IsKept program.now) objects.now }
    ensures shown { IfOk result
        (λ copies. map (object_of program.now) copies.items
        ≡ map (object_of program.now) objects.now) }
    ensures kept { IfOk result (λ copies. AllByRecursion (IsKept program.now) copies.items) }
{
    let mut copies = Vec::with_capacity(alloc, objects.len())?;
    push_copies(alloc, program, objects, &mut copies)?;
    Ok(copies)
}

impl<'p> Heap<'p> {
    /// Copies the heap.
    pub fn copy(&self) -> Result<Heap<'p>, AllocError>
        ensures { IfOk result (λ heap. heap ≡ self.now) }
    {
        Ok(Heap {
            alloc: self.alloc,
            program: self.program,
            objects: copied(self.alloc, self.program, self.objects.as_slice())?,
            elements: self.elements,
            texts: self.texts.copy()?,
            class_objects: self.class_objects.copy()?,
            primitive_arrays: PrimitiveArrays::new(self.alloc)?,
        })
    }
}
