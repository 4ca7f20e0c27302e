//! The reasons why a text isn't that of a part, or why parts can't be joined.

ghost use Rattle.std.specs.Prelude.{◌≡◌};
ghost use Rattle.exploration_joins.specs.declared.fault.JoinFault.TheVariants as fault;

use std::alloc::AllocError;
use thiserror::Error;

/// A reason why a text isn't that of a part of an exploration.
#[derive(Clone, Copy, Debug, PartialEq, Eq, Error)]
pub enum PartFault {
    /// T01: the number of the first line, from 1, that isn't as `explore --part` writes it.
    #[error("T01 Syntax line {line}")]
    Syntax { line: usize },
    /// Memory ran out.
    #[error("Memory")]
    Memory,
}

impl From<AllocError> for PartFault {
    fn from(_error: AllocError) -> PartFault {
        PartFault::Memory
    }
}

/// A reason why parts aren't those of one exploration.
#[derive(Clone, Copy, Debug, PartialEq, Eq, Error)]
pub enum JoinFault {
    /// T04: the least number of a part, from 0, that two texts have.
    #[error("T04 RepeatedPart {index}")]
    Repeated { index: u64 },
    /// T05: the parts aren't of the same number of parts, or don't cover the same, or a sum exceeds 2^64 - 1.
    #[error("T05 OtherExploration")]
    Other,
    /// Memory ran out.
    #[error("Memory")]
    Memory,
}

impl From<AllocError> for JoinFault {
    ghost from_gives = { λ _ error. error ≡ fault.Memory };

    fn from(_error: AllocError) -> JoinFault {
        JoinFault::Memory
    }
}
