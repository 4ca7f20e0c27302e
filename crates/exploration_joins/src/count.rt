//! What is counted of the runs of a level.

ghost use Rattle.std.specs.Prelude.{◌≡◌};
ghost use Rattle.exploration_joins.specs.Sums.{count_in};

use exploring::LevelRuns;

/// What is counted of the runs of a level.
#[derive(Clone, Copy, Debug)]
pub(crate) enum Count {
    Runs,
    Cycle,
    Uncaught,
    Deadlocked,
    Stalled,
    Running,
    Jobs,
}

impl Count {
    /// Returns this count of a level's runs.
    pub(crate) fn of(self, runs: LevelRuns) -> u64
        ensures { result ≡ count_in self runs }
    {
        match self {
            Count::Runs => runs.level.runs,
            Count::Cycle => runs.level.cycle,
            Count::Uncaught => runs.level.uncaught,
            Count::Deadlocked => runs.level.deadlocked,
            Count::Stalled => runs.level.stalled,
            Count::Running => runs.level.running,
            Count::Jobs => runs.jobs,
        }
    }
}
