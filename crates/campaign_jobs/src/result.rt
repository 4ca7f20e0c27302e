//! The result of a job.

ghost use Rattle.std.specs.Prelude.{◌≡◌};
ghost use Rattle.campaign_jobs.specs.Atomicities.{has_cycle};

use program_runs::machine::Status;

/// The atomicity of a run.
#[derive(Clone, Copy, Debug, PartialEq, Eq)]
pub enum Atomicity {
    /// No cycle of transactions exists.
    Atomic,
    /// The first `first_at` events have a cycle, and no fewer have one.
    Cycle { first_at: u64 },
}

impl Atomicity {
    /// Returns whether the run has a cycle.
    pub fn has_cycle(self) -> bool
        ensures { result ≡ has_cycle self }
    {
        matches!(self, Atomicity::Cycle { .. })
    }
}

/// The result of a job: how its run ended, and its atomicity.
#[derive(Clone, Copy, Debug, PartialEq, Eq)]
pub struct JobResult {
    /// The atomicity of the run.
    pub atomicity: Atomicity,
    /// The status of the machine after the last turn.
    pub status: Status,
    /// The number of turns.
    pub turns: u64,
    /// The number of events.
    pub events: u64,
}
