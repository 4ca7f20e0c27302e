//! The reasons why a text is no trace.

ghost use Rattle.std.specs.Prelude.{◌≡◌};
ghost use Rattle.trace_text.specs.declared.fault.TraceFault.TheVariants as fault;

use std::alloc::AllocError;
use thiserror::Error;

/// A reason why a text is no trace.
#[derive(Clone, Copy, Debug, PartialEq, Eq, Error)]
pub enum TraceFault {
    /// X01: the number of the first faulty line, from 1. It is no item, or no LF ends it.
    #[error("X01 Syntax line {line}")]
    Syntax { line: usize },
    /// X02: memory ran out.
    #[error("X02 Memory")]
    Memory,
}

impl From<AllocError> for TraceFault {
    ghost from_gives = { λ _ e. e ≡ fault.Memory };

    fn from(_error: AllocError) -> TraceFault {
        TraceFault::Memory
    }
}
