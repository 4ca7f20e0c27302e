//! The faults of a text that is no source.

ghost use Rattle.std.specs.Prelude.{◌≡◌};
ghost use Rattle.jasmin_reader.specs.declared.fault.SourceFault.TheVariants as fault;
ghost use Rattle.jasmin_reader.specs.Readings.{source_fault};

use jasmin::statement::Flaw;
use jasmin_instructions::LineFault;
use std::alloc::AllocError;
use thiserror::Error;

/// A fault of a text that is no source.
#[derive(Clone, Copy, Debug, PartialEq, Eq, Error)]
pub enum SourceFault {
    /// J01 to J11: the number of the first faulty line, from 1, with the least number of its faults.
    #[error("{flaw} line {line}")]
    Flawed { flaw: Flaw, line: usize },
    /// J12: memory ran out.
    #[error("J12 Memory")]
    Memory,
}

impl SourceFault {
    /// Returns the fault of a source whose line has this fault.
    pub(crate) fn at(line: usize, fault: LineFault) -> SourceFault
        ensures { result ≡ source_fault line fault }
    {
        match fault {
            LineFault::Flaw(flaw) => SourceFault::Flawed { flaw, line },
            LineFault::Memory => SourceFault::Memory,
        }
    }
}

impl From<AllocError> for SourceFault {
    ghost from_gives = { λ _ e. e ≡ fault.Memory };

    fn from(_error: AllocError) -> SourceFault {
        SourceFault::Memory
    }
}
