//! What is left of the departures of a schedule's run.

use exploration_text::exploring::FailingRun;
use shrinking::Failure;

/// The run of the departures that are left of a schedule's.
#[derive(Drop)]
pub struct ShrunkRun {
    /// The run of the departures that are left.
    pub run: FailingRun,
    /// The way in which it fails: the first in which the run of all departures fails.
    pub failure: Failure,
    /// The number of runs that the search made, with that of all departures.
    pub runs: u64,
    /// `true` if no single departure can be left out. Several at once may be.
    pub is_least: bool,
}
