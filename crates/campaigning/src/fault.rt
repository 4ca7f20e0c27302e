//! The reasons why a campaign has no table, or why it wasn't written.

ghost use Rattle.std.specs.Prelude.{◌≡◌};
ghost use Rattle.judge.specs.declared.fault.JudgeFault.TheVariants.{Memory};
ghost use Rattle.campaigning.specs.declared.fault.CampaignFault.TheVariants.{Judge, Output};
ghost use Rattle.campaigning.specs.Faults.{is_memory};

use campaign_text::campaign::DeskFault;
use judge::JudgeFault;
use std::alloc::AllocError;
use thiserror::Error;
use trace::DeviceFailure;

/// A reason why a campaign has no table, or why it wasn't written.
#[derive(Clone, Copy, Debug, PartialEq, Eq, Error)]
pub enum CampaignFault {
    /// The inputs make no program, the entry has no machine, or memory ran out for these or for the text.
    #[error("{0}")]
    Judge(JudgeFault),
    /// G01, G02, G04: there are too many jobs or workers, or memory ran out before any worker began.
    #[error("{0}")]
    Desk(DeskFault),
    /// G05: memory ran out for a worker.
    #[error("G05 WorkerFailed")]
    WorkerFailed,
    /// P05: the writer failed.
    #[error("P05 Output")]
    Output,
}

impl CampaignFault {
    /// Returns whether memory ran out for the campaign itself: G04, G05.
    pub fn is_memory(&self) -> bool
        ensures { result ≡ is_memory self.now }
    {
        matches!(
            self,
            CampaignFault::Desk(DeskFault::Memory) | CampaignFault::WorkerFailed
        )
    }
}

impl From<JudgeFault> for CampaignFault {
    ghost from_gives = { λ why fault. fault ≡ Judge why };

    fn from(why: JudgeFault) -> CampaignFault {
        CampaignFault::Judge(why)
    }
}

impl From<DeviceFailure> for CampaignFault {
    ghost from_gives = { λ _ fault. fault ≡ Output };

    fn from(_failure: DeviceFailure) -> CampaignFault {
        CampaignFault::Output
    }
}

impl From<AllocError> for CampaignFault {
    ghost from_gives = { λ _ fault. fault ≡ Judge Memory };

    fn from(_error: AllocError) -> CampaignFault {
        CampaignFault::Judge(JudgeFault::Memory)
    }
}
