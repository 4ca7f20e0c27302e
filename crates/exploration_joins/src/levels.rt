//! Counts the runs of parts together.

ghost use Rattle.std.specs.Prelude.{◌≡◌, ◌^◌, ◌≤◌, IfOk, MatchOption};
ghost use Rattle.exploration_joins.specs.Sums.{AreSums, AreTooMany, IsBeyond, IsLeast, no_runs, runs_at, sum_at, total};

use crate::count::Count;
use crate::part::PartText;
use exploring::{Level, LevelRuns};
use std::alloc::{AllocError, Global};

/// Returns a level without a run.
fn no_runs(level: u64) -> LevelRuns
    ensures { result ≡ no_runs level }
{
    let level = Level {
        departures: level,
        runs: 0,
        cycle: 0,
        uncaught: 0,
        deadlocked: 0,
        stalled: 0,
        running: 0,
    };
    LevelRuns { level, jobs: 0 }
}

/// Returns the runs of a part at a level.
fn runs_at(part: &PartText, level: usize) -> LevelRuns
    ensures { result ≡ runs_at level part.now }
{
    match part.levels.get(level) {
        Some(runs) => *runs,
        None => no_runs(level as u64),
    }
}

/// Returns the sum of a count of the parts' runs at a level, or `None` if it exceeds 2^64 - 1.
fn total(parts: &[PartText], level: usize, count: Count) -> Option<u64>
    ensures { MatchOption result (2 ^ 64 ≤ total count level parts.now)
        (λ sum. sum ≡ total count level parts.now) }
{
    let mut sum = 0u64;
    for part in parts {
        sum = sum.checked_add(count.of(runs_at(part, level)))?;
    }
    Some(sum)
}

/// Returns the runs of all parts at a level, counted together, or `None` if a sum exceeds 2^64 - 1.
fn sum_at(parts: &[PartText], level: usize) -> Option<LevelRuns>
    ensures { MatchOption result (IsBeyond parts.now level) (λ sum. sum ≡ sum_at level parts.now) }
{
    let runs = total(parts, level, Count::Runs)?;
    let cycle = total(parts, level, Count::Cycle)?;
    let uncaught = total(parts, level, Count::Uncaught)?;
    let deadlocked = total(parts, level, Count::Deadlocked)?;
    let stalled = total(parts, level, Count::Stalled)?;
    let running = total(parts, level, Count::Running)?;
    let jobs = total(parts, level, Count::Jobs)?;
    let level = Level {
        departures: level as u64,
        runs,
        cycle,
        uncaught,
        deadlocked,
        stalled,
        running,
    };
    Some(LevelRuns { level, jobs })
}

/// Returns the least number of levels that a part has, or 0 without a part.
fn least_levels(parts: &[PartText]) -> usize
    ensures { IsLeast parts.now result }
{
    let Some(first) = parts.first() else {
        return 0;
    };
    let mut least = first.levels.len();
    for part in parts {
        if part.levels.len() < least {
            least = part.levels.len();
        }
    }
    least
}

/// Returns the sums of the levels that all parts have, or `None` if one exceeds 2^64 - 1.
pub(crate) fn sums(alloc: Global, parts: &[PartText]) -> Result<Option<Vec<LevelRuns>>, AllocError>
    ensures { IfOk result (λ sums. MatchOption sums (AreTooMany parts.now)
        (λ levels. AreSums parts.now levels.items)) }
{
    let mut levels = Vec::new(alloc);
    for level in 0..least_levels(parts) {
        let Some(runs) = sum_at(parts, level) else {
            return Ok(None);
        };
        levels.push(runs)?;
    }
    Ok(Some(levels))
}
