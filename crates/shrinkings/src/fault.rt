//! The reasons why no run is shrunk, or why it wasn't written.

ghost use Rattle.std.specs.Prelude.{◌≡◌};
ghost use Rattle.judge.specs.declared.fault.JudgeFault.TheVariants.{Memory};
ghost use Rattle.shrinkings.specs.declared.fault.ShrinkFault.TheVariants.{Judge, Output};

use judge::JudgeFault;
use std::alloc::AllocError;
use thiserror::Error;
use trace::DeviceFailure;

/// A reason why no run is shrunk, or why it wasn't written.
#[derive(Clone, Copy, Debug, PartialEq, Eq, Error)]
pub enum ShrinkFault {
    /// The inputs make no program, the entry has no machine, or memory ran out.
    #[error("{0}")]
    Judge(JudgeFault),
    /// P06: the run of the schedule's departures doesn't fail.
    #[error("P06 NotFailing")]
    NotFailing,
    /// P05: the writer failed.
    #[error("P05 Output")]
    Output,
}

impl From<JudgeFault> for ShrinkFault {
    ghost from_gives = { λ why fault. fault ≡ Judge why };

    fn from(why: JudgeFault) -> ShrinkFault {
        ShrinkFault::Judge(why)
    }
}

impl From<DeviceFailure> for ShrinkFault {
    ghost from_gives = { λ _ fault. fault ≡ Output };

    fn from(_failure: DeviceFailure) -> ShrinkFault {
        ShrinkFault::Output
    }
}

impl From<AllocError> for ShrinkFault {
    ghost from_gives = { λ _ fault. fault ≡ Judge Memory };

    fn from(_error: AllocError) -> ShrinkFault {
        ShrinkFault::Judge(JudgeFault::Memory)
    }
}
