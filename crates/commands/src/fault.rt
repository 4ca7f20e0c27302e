//! The reasons why nothing was run, or why its text wasn't written.

ghost use Rattle.std.specs.Prelude.{◌≡◌};
ghost use Rattle.judge.specs.declared.fault.JudgeFault.TheVariants.{Memory};
ghost use Rattle.commands.specs.declared.fault.RunFault.TheVariants.{Judge, Output};

use judge::JudgeFault;
use std::alloc::{AllocError, AllocFailed};
use thiserror::Error;
use trace::DeviceFailure;

/// A reason why a program wasn't run, or why its text wasn't written.
#[derive(Clone, Copy, Debug, PartialEq, Eq, Error)]
pub enum RunFault {
    /// The inputs make no program, the entry has no machine, or memory ran out.
    #[error("{0}")]
    Judge(JudgeFault),
    /// P05: the writer failed.
    #[error("P05 Output")]
    Output,
}

impl From<JudgeFault> for RunFault {
    ghost from_gives = { λ fault error. error ≡ Judge fault };

    fn from(fault: JudgeFault) -> RunFault {
        RunFault::Judge(fault)
    }
}

impl From<DeviceFailure> for RunFault {
    ghost from_gives = { λ _ error. error ≡ Output };

    fn from(_failure: DeviceFailure) -> RunFault {
        RunFault::Output
    }
}

impl From<AllocError> for RunFault {
    ghost from_gives = { λ _ error. error ≡ Judge Memory };

    fn from(_error: AllocError) -> RunFault {
        RunFault::Judge(JudgeFault::Memory)
    }
}

impl<T: Drop> From<AllocFailed<T>> for RunFault {
    ghost from_gives = { λ _ error. error ≡ Judge Memory };

    fn from(_error: AllocFailed<T>) -> RunFault {
        RunFault::Judge(JudgeFault::Memory)
    }
}
