//! Saved machines. Consecutive saved machines share the objects that did not change.

ghost use Rattle.std.specs.Prelude.{◌≡◌, IfOk};

use crate::machine::Machine;
use invoke::machine_parts::SavedParts;
use std::alloc::AllocError;
use std::marker::Model;

/// A saved machine. Contracts see the machine itself.
#[derive(Drop)]
pub struct SavedMachine<'p> {
    parts: SavedParts<'p>,
}

impl<'p> Model for SavedMachine<'p> {
    ghost use Rattle.invoke.specs.machine_parts.Machine.{Machine as Seen, IsMachine};

    ghost Value = { Seen };

    ghost view = { λ m. m.parts };

    ghost invariant = { λ m. IsMachine m.parts };
}

/// Returns the parts of a saved machine, if there is one.
fn parts_of<'a, 'p>(saved: Option<&'a SavedMachine<'p>>) -> Option<&'a SavedParts<'p>> {
    Some(&saved?.parts)
}

impl<'p> Machine<'p> {
    /// Saves the machine. Objects that equal those of an earlier saved machine are shared with it.
    pub fn save(&self, before: Option<&SavedMachine<'p>>) -> Result<SavedMachine<'p>, AllocError>
        ensures { IfOk result (λ saved. saved ≡ self.now) }
    {
        Ok(SavedMachine {
            parts: self.parts.save(parts_of(before))?,
        })
    }
}

impl<'p> SavedMachine<'p> {
    /// Returns a machine in the saved state. The saved machine stays as it is.
    pub fn restore(&self) -> Result<Machine<'p>, AllocError>
        ensures { IfOk result (λ machine. machine ≡ self.now) }
    {
        Ok(Machine {
            parts: self.parts.restore()?,
        })
    }
}
