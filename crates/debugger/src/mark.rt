//! A machine at a position of a run.

ghost use Rattle.std.specs.Prelude.{◌≡◌, IfOk};

use jvms_machine::machine::Outcome;
use machine::Machine;
use std::alloc::AllocError;

/// A machine at a position of a run.
#[derive(Drop)]
pub(crate) struct Mark<'p> {
    pub(crate) machine: Machine<'p>,
    /// The number of items before the position.
    pub(crate) items: usize,
    /// The outcome of the last choice before it.
    pub(crate) outcome: Option<Outcome>,
}

impl<'p> Mark<'p> {
    /// Copies the machine, the number of items and the outcome.
    pub(crate) fn copy(&self) -> Result<Mark<'p>, AllocError>
        ensures { IfOk result (λ m. m ≡ self.now) }
    {
        Ok(Mark {
            machine: self.machine.copy()?,
            items: self.items,
            outcome: self.outcome,
        })
    }
}
