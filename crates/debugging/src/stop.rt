//! The reasons why the debugging of a program ended early.

ghost use Rattle.std.specs.Prelude.{◌≡◌};
ghost use Rattle.debugging.specs.declared.stop.DebugStop.TheVariants.{Judge};

use debugger_script::ScriptFault;
use judge::JudgeFault;
use thiserror::Error;

/// A reason why a program wasn't debugged, or not to the end of the script.
#[derive(Clone, Copy, Debug, PartialEq, Eq, Error)]
pub enum DebugStop {
    /// The inputs make no program, the entry has no machine, or memory ran out. Nothing was read.
    #[error("{0}")]
    Judge(JudgeFault),
    /// S01 to S03: the script ended early.
    #[error("{0}")]
    Script(ScriptFault),
}

impl From<JudgeFault> for DebugStop {
    ghost from_gives = { λ fault stop. stop ≡ Judge fault };

    fn from(fault: JudgeFault) -> DebugStop {
        DebugStop::Judge(fault)
    }
}
