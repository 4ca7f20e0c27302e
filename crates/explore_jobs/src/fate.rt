//! How the run of a job ends.

ghost use Rattle.std.specs.Prelude.{◌≡◌};
ghost use Rattle.explore_jobs.specs.Fates.{fails, is_finished};

use campaign_jobs::JobResult;
use campaign_jobs::machine::Status;

/// How the run of a job ends: its result, and whether a thread ended by an exception that nothing caught.
#[derive(Clone, Copy, Debug, PartialEq, Eq)]
pub struct Fate {
    /// The atomicity, the status, and the numbers of turns and events.
    pub result: JobResult,
    /// `true` if a thread ended by an exception that nothing caught.
    pub has_uncaught: bool,
}

/// Returns whether all threads of a run of this status have ended.
fn is_finished(status: Status) -> bool
    ensures { result ≡ is_finished status }
{
    match status {
        Status::Finished => true,
        Status::Running | Status::Stalled | Status::Deadlocked => false,
    }
}

impl Fate {
    /// Returns whether the run fails: it has a cycle, a thread ended by an exception, or some thread hasn't ended.
    pub fn fails(self) -> bool
        ensures { result ≡ fails self }
    {
        self.result.atomicity.has_cycle() || self.has_uncaught || !is_finished(self.result.status)
    }
}
