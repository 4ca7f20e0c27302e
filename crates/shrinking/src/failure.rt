//! Ways in which a run fails.

ghost use Rattle.std.specs.Prelude.{◌≡◌, IfSome, is_some, true};
ghost use Rattle.explore_jobs.specs.Fates.{fails};
ghost use Rattle.shrinking.specs.Failures.{failure_of, failure_of_job, fails_by, is_of};

use explore_jobs::Fate;
use machine::Status;
use turn_limit::TurnLimit;

/// A way in which a run fails. A run may fail in several.
#[derive(Clone, Copy, Debug, PartialEq, Eq)]
pub enum Failure {
    /// The events have a cycle.
    Cycle,
    /// A thread ended by an exception that nothing caught.
    Uncaught,
    /// The run is deadlocked.
    Deadlocked,
    /// The run is stalled.
    Stalled,
    /// A thread can go on after the last turn.
    Running,
}

impl Failure {
    /// Returns the first way in which a run fails, in the order of the ways, or `None` if it doesn't fail.
    pub fn of(fate: Fate) -> Option<Failure>
        ensures first { result ≡ failure_of fate }
        ensures some { is_some result ≡ fails fate }
    {
        if fate.result.atomicity.has_cycle() {
            return Some(Failure::Cycle);
        }
        if fate.has_uncaught {
            return Some(Failure::Uncaught);
        }
        match fate.result.status {
            Status::Deadlocked => Some(Failure::Deadlocked),
            Status::Stalled => Some(Failure::Stalled),
            Status::Running => Some(Failure::Running),
            Status::Finished => None,
        }
    }

    /// Returns whether a run fails in this way.
    pub fn is_of(self, fate: Fate) -> bool
        ensures { result ≡ is_of self fate }
    {
        match self {
            Failure::Cycle => fate.result.atomicity.has_cycle(),
            Failure::Uncaught => fate.has_uncaught,
            Failure::Deadlocked => matches!(fate.result.status, Status::Deadlocked),
            Failure::Stalled => matches!(fate.result.status, Status::Stalled),
            Failure::Running => matches!(fate.result.status, Status::Running),
        }
    }

    /// Returns whether the run of a job of at most `most` turns fails in this way. `Running` counts only where all of these
    /// turns were taken: a run also ends at a departure to a thread that isn't enabled.
    pub fn is_of_job(self, fate: Fate, most: TurnLimit) -> bool
        ensures { result ≡ fails_by most self fate }
    {
        match self {
            Failure::Running => self.is_of(fate) && fate.result.turns == most.turns(),
            Failure::Cycle | Failure::Uncaught | Failure::Deadlocked | Failure::Stalled => {
                self.is_of(fate)
            }
        }
    }

    /// Returns the first way in which the run of a job of at most `most` turns fails, in the order of the ways, or `None` if
    /// it doesn't fail. `Running` counts as `is_of_job` says.
    #[tactic(auto, using(crate::proofs::FirstWays::first_of_job))]
    pub fn of_job(fate: Fate, most: TurnLimit) -> Option<Failure>
        ensures first { result ≡ failure_of_job most fate }
        ensures fails { IfSome result (λ way. fails_by most way fate ≡ true) }
    {
        let way = Failure::of(fate)?;
        if way.is_of_job(fate, most) {
            Some(way)
        } else {
            None
        }
    }
}
