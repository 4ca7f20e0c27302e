//! The reasons why an exploration has no answer, or why it wasn't written.

ghost use Rattle.std.specs.Prelude.{◌≡◌};
ghost use Rattle.judge.specs.declared.fault.JudgeFault.TheVariants.{Memory};
ghost use Rattle.explorations.specs.declared.fault.ExplorationFault.TheVariants.{Judge, Output};

use judge::JudgeFault;
use std::alloc::AllocError;
use thiserror::Error;
use trace::DeviceFailure;

/// A reason why an exploration has no answer, or why it wasn't written.
#[derive(Clone, Copy, Debug, PartialEq, Eq, Error)]
pub enum ExplorationFault {
    /// The inputs make no program, the entry has no machine, or memory ran out.
    #[error("{0}")]
    Judge(JudgeFault),
    /// P05: the writer failed.
    #[error("P05 Output")]
    Output,
}

impl From<JudgeFault> for ExplorationFault {
    ghost from_gives = { λ why fault. fault ≡ Judge why };

    fn from(why: JudgeFault) -> ExplorationFault {
        ExplorationFault::Judge(why)
    }
}

impl From<DeviceFailure> for ExplorationFault {
    ghost from_gives = { λ _ fault. fault ≡ Output };

    fn from(_failure: DeviceFailure) -> ExplorationFault {
        ExplorationFault::Output
    }
}

impl From<AllocError> for ExplorationFault {
    ghost from_gives = { λ _ fault. fault ≡ Judge Memory };

    fn from(_error: AllocError) -> ExplorationFault {
        ExplorationFault::Judge(JudgeFault::Memory)
    }
}
