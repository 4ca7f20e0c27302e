//! The faults of a line that has no tokens.

ghost use Rattle.std.specs.Prelude.{◌≡◌};
ghost use Rattle.jasmin_lex.specs.declared.fault.LexFault.TheVariants.{Memory};

use std::alloc::{AllocError, AllocFailed};
use thiserror::Error;

/// A fault of a line that has no tokens.
#[derive(Clone, Copy, Debug, PartialEq, Eq, Error)]
pub enum LexFault {
    /// J01: a text isn't closed on its line, or a backslash in a text begins no escape.
    #[error("J01 Lexeme")]
    Lexeme,
    /// Memory ran out.
    #[error("Memory")]
    Memory,
}

impl From<AllocError> for LexFault {
    ghost from_gives = { λ _ e. e ≡ Memory };

    fn from(_e: AllocError) -> LexFault {
        LexFault::Memory
    }
}

impl<T: Drop> From<AllocFailed<T>> for LexFault {
    ghost from_gives = { λ _ e. e ≡ Memory };

    fn from(_e: AllocFailed<T>) -> LexFault {
        LexFault::Memory
    }
}
