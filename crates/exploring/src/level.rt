//! What is counted of the runs of a level.

ghost use Rattle.std.specs.Prelude.{◌≡◌, count_by};
ghost use Rattle.explore_jobs.specs.campaign_jobs.Atomicities.{has_cycle};
ghost use Rattle.exploring.specs.Counts.{is_deadlocked, is_running, is_stalled, level_of};

use explore_jobs::Fate;
use program_runs::machine::Status;

/// What is counted of the runs of a level. A run that fails in several ways counts under each.
#[derive(Clone, Copy, Debug, PartialEq, Eq)]
pub struct Level {
    /// The number of departures of each run.
    pub departures: u64,
    /// The number of runs.
    pub runs: u64,
    /// The number of runs with a cycle.
    pub cycle: u64,
    /// The number of runs in which a thread ended by an exception that nothing caught.
    pub uncaught: u64,
    /// The number of runs that were deadlocked.
    pub deadlocked: u64,
    /// The number of runs that were stalled.
    pub stalled: u64,
    /// The number of runs with a thread that could go on after the last turn.
    pub running: u64,
}

/// Returns whether a run was deadlocked.
fn is_deadlocked(fate: &Fate) -> bool
    ensures { result ≡ is_deadlocked fate.now.result.status }
{
    fate.result.status == Status::Deadlocked
}

/// Returns whether a run was stalled.
fn is_stalled(fate: &Fate) -> bool
    ensures { result ≡ is_stalled fate.now.result.status }
{
    fate.result.status == Status::Stalled
}

/// Returns whether a run had a thread that could go on.
fn is_running(fate: &Fate) -> bool
    ensures { result ≡ is_running fate.now.result.status }
{
    fate.result.status == Status::Running
}

/// Returns the number of runs with a cycle.
fn count_cycles(fates: &[Fate]) -> u64
    ensures { result ≡ count_by (λ fate. has_cycle fate.result.atomicity) fates.now }
{
    let with = fates
        .iter()
        .filter(|fate| fate.result.atomicity.has_cycle());
    with.count() as u64
}

/// Returns the number of runs in which a thread ended by an exception.
fn count_uncaught(fates: &[Fate]) -> u64
    ensures { result ≡ count_by (λ fate. fate.has_uncaught) fates.now }
{
    fates.iter().filter(|fate| fate.has_uncaught).count() as u64
}

/// Returns the number of deadlocked runs.
fn count_deadlocked(fates: &[Fate]) -> u64
    ensures { result ≡ count_by (λ fate. is_deadlocked fate.result.status) fates.now }
{
    fates.iter().filter(|fate| is_deadlocked(fate)).count() as u64
}

/// Returns the number of stalled runs.
fn count_stalled(fates: &[Fate]) -> u64
    ensures { result ≡ count_by (λ fate. is_stalled fate.result.status) fates.now }
{
    fates.iter().filter(|fate| is_stalled(fate)).count() as u64
}

/// Returns the number of runs with a thread that could go on.
fn count_running(fates: &[Fate]) -> u64
    ensures { result ≡ count_by (λ fate. is_running fate.result.status) fates.now }
{
    fates.iter().filter(|fate| is_running(fate)).count() as u64
}

impl Level {
    /// Counts the runs of a level with this number of departures, which ended so.
    pub fn of(departures: u64, fates: &[Fate]) -> Level
        ensures { result ≡ level_of departures fates.now }
    {
        Level {
            departures,
            runs: fates.len() as u64,
            cycle: count_cycles(fates),
            uncaught: count_uncaught(fates),
            deadlocked: count_deadlocked(fates),
            stalled: count_stalled(fates),
            running: count_running(fates),
        }
    }
}
