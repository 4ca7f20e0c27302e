//! The reasons why a command of the debugger is refused.

ghost use Rattle.std.specs.Prelude.{◌≡◌};
ghost use Rattle.debugger_commands.specs.declared.fault.DebugFault.TheVariants as fault;

use std::alloc::AllocError;
use thiserror::Error;

/// A reason why a command of the debugger is refused. A command that is refused changes nothing.
#[derive(Clone, Copy, Debug, PartialEq, Eq, Error)]
pub enum DebugFault {
    /// B01: the line is empty, isn't UTF-8, begins with no command's word, or has too few or too many words.
    #[error("B01 UnknownCommand")]
    UnknownCommand,
    /// B02: the word at a number's place isn't decimal digits of at most 4,294,967,295.
    #[error("B02 Number")]
    Number,
    /// B03: no thread has this number.
    #[error("B03 NoThread")]
    NoThread,
    /// B04: no object has this number.
    #[error("B04 NoObject")]
    NoObject,
    /// B05: no breakpoint has this number, or all numbers have been used.
    #[error("B05 NoBreakpoint")]
    NoBreakpoint,
    /// B06: no method's code has such a place, or no class has this name.
    #[error("B06 NoPlace")]
    NoPlace,
    /// B07: memory ran out.
    #[error("B07 Memory")]
    Memory,
}

impl From<AllocError> for DebugFault {
    ghost from_gives = { λ _ e. e ≡ fault.Memory };

    fn from(_error: AllocError) -> DebugFault {
        DebugFault::Memory
    }
}
