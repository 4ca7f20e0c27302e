//! The saved parts of machines. Consecutive saved machines share the objects that did not change.

ghost use Rattle.std.specs.Prelude.{◌≡◌, IfOk};

use crate::parts::Parts;
use machine_thread::heap::SavedHeap;
use std::alloc::AllocError;
use std::marker::Model;

/// The saved parts of a machine. Contracts see the parts themselves.
#[derive(Drop)]
pub struct SavedParts<'p> {
    /// All parts except the objects. Its heap is empty.
    rest: Parts<'p>,
    heap: SavedHeap<'p>,
}

impl<'p> Model for SavedParts<'p> {
    ghost use Rattle.std.specs.Prelude.{◌≡◌};
    ghost use Rattle.machine_parts.specs.Machine.{Machine as Seen};
    ghost use Rattle.machine_parts.specs.Saved.{with_objects};

    ghost Value = { Seen };

    ghost view = { λ s. with_objects s.heap s.rest };

    // The saved heap is of the same program as the other parts.
    ghost invariant = { λ s. s.rest.program ≡ s.heap.program };
}

/// Returns the heap of saved parts, if there are any.
fn heap_of<'a, 'p>(saved: Option<&'a SavedParts<'p>>) -> Option<&'a SavedHeap<'p>> {
    Some(&saved?.heap)
}

impl<'p> Parts<'p> {
    /// Saves the parts. Groups of objects that equal those of the earlier saved parts are shared with them.
    pub fn save(&self, before: Option<&SavedParts<'p>>) -> Result<SavedParts<'p>, AllocError>
        ensures { IfOk result (λ saved. saved ≡ self.now) }
    {
        let heap = self.heap.save(heap_of(before))?;
        let rest = self.copy_without_objects()?;
        Ok(SavedParts { rest, heap })
    }
}

impl<'p> SavedParts<'p> {
    /// Returns parts equal to the saved ones, which stay as they are.
    pub fn restore(&self) -> Result<Parts<'p>, AllocError>
        ensures { IfOk result (λ parts. parts ≡ self.now) }
    {
        let parts = self.rest.copy_without_objects()?;
        match self.heap.restore() {
            Ok(heap) => Ok(parts.with_heap(heap)),
            Err(error) => {
                drop(parts);
                Err(error)
            }
        }
    }
}
