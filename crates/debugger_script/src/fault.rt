//! The reasons why a script stopped before its end.

ghost use Rattle.std.specs.Prelude.{◌≡◌};
ghost use Rattle.debugger_script.specs.declared.fault.ScriptFault.TheVariants as fault;

use std::alloc::AllocError;
use thiserror::Error;

/// A reason why a script stopped before its end.
#[derive(Clone, Copy, Debug, PartialEq, Eq, Error)]
pub enum ScriptFault {
    /// S01: a read of the script failed.
    #[error("S01 Read")]
    Read,
    /// S02: a write of an answer failed.
    #[error("S02 Write")]
    Write,
    /// S03: memory ran out for a line or for its answer.
    #[error("S03 Memory")]
    Memory,
}

impl From<AllocError> for ScriptFault {
    ghost from_gives = { λ _ e. e ≡ fault.Memory };

    fn from(_error: AllocError) -> ScriptFault {
        ScriptFault::Memory
    }
}
