//! The reason for which a program wasn't run.

ghost use Rattle.std.specs.Prelude.{◌≡◌};
ghost use Rattle.program_runs.specs.declared.fault.ProgramFault.TheVariants as fault;

use runs::machine::MachineFault;
use std::alloc::AllocError;
use thiserror::Error;

/// The reason for which a program wasn't run.
#[derive(Clone, Copy, Debug, PartialEq, Eq, Error)]
pub enum ProgramFault {
    /// M01 to M03: there is no machine for the entry.
    #[error("{0}")]
    Machine(MachineFault),
    /// There was no memory for the run.
    #[error("Memory")]
    Memory,
}

impl From<MachineFault> for ProgramFault {
    ghost from_gives = { λ why error. error ≡ fault.Machine why };

    fn from(why: MachineFault) -> ProgramFault {
        ProgramFault::Machine(why)
    }
}

impl From<AllocError> for ProgramFault {
    ghost from_gives = { λ _ error. error ≡ fault.Memory };

    fn from(_error: AllocError) -> ProgramFault {
        ProgramFault::Memory
    }
}
