//! The reasons why a text is no specification.

ghost use Rattle.std.specs.Prelude.{◌≡◌};
ghost use Rattle.atom_spec.specs.declared.fault.SpecFault.TheVariants as fault;

use std::alloc::AllocError;
use thiserror::Error;

/// A reason why a text is no specification.
#[derive(Clone, Copy, Debug, PartialEq, Eq, Error)]
pub enum SpecFault {
    /// E01: the number of the first line, from 1, that is neither skipped nor a line of a specification.
    #[error("E01 Syntax line {line}")]
    Syntax { line: usize },
    /// E02: memory ran out.
    #[error("E02 Memory")]
    Memory,
}

impl From<AllocError> for SpecFault {
    ghost from_gives = { λ _ e. e ≡ fault.Memory };

    fn from(_error: AllocError) -> SpecFault {
        SpecFault::Memory
    }
}
