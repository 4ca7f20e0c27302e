//! Reads the words of `explore`.

ghost use Rattle.std.specs.Prelude.{◌↔◌, ◌^◌, ◌<◌, ◌≤◌, IfOk, IfSome, IsTrue};
ghost use Rattle.command_line.specs.ExploreLimits.{AreWithin};

use crate::entry::natural_of;
use crate::fault::WordsFault;
use crate::program_words::{ProgramWords, most_or, number_or, program_words};
use crate::syntax::{ALL, DEPARTURES, MOST, PART, RUNS, SPECIFICATION, SUMMARY, WITHIN, WORKERS};
use clap::ArgMatches;
use exploration_parts::Part;
use std::alloc::Global;
use turn_limit::TurnLimit;

/// The greatest number of departures.
const MOST_DEPARTURES: u64 = 16;

/// The greatest number of runs.
const MOST_RUNS: u64 = 1_000_000_000;

/// The greatest number of parts.
const MOST_PARTS: u64 = 1_000_000;

/// The greatest number of workers.
const MOST_WORKERS: u64 = 64;

/// The number of departures without `--departures`.
const DEFAULT_DEPARTURES: u64 = 2;

/// The number of runs without `--runs`.
const DEFAULT_RUNS: u64 = 1_000_000;

/// The maximum number of turns of each run without `--max`.
pub(crate) const DEFAULT_MOST: u64 = 100_000;

/// The number of workers without `--workers`.
const DEFAULT_WORKERS: u64 = 4;

/// The words of `explore`.
#[derive(Debug, Drop)]
pub struct ExploreWords<'a> {
    pub program: ProgramWords<'a>,
    /// The file with the specification of which methods are to be atomic. Without it no run is judged.
    pub spec: Option<&'a str>,
    /// The greatest number of departures of a run, at most 16.
    pub departures: u64,
    /// The patterns of the methods in which threads may be left. Without one they are left wherever their next turn isn't local.
    pub within: Vec<&'a str>,
    /// The part of the schedules that is explored, of at most 1,000,000. `None` means all.
    pub part: Option<Part>,
    /// The maximum number of runs, from 1 to 1,000,000,000.
    pub runs: u64,
    /// The number of workers, from 1 to 64.
    pub workers: u64,
    /// The maximum number of turns of each run.
    pub most: TurnLimit,
    /// The word for the maximum number of turns, if there is one.
    pub most_text: Option<&'a str>,
    /// `true` if the levels after one with a failing run are explored too.
    pub all: bool,
    /// `true` if a summary is printed even if standard error is no terminal.
    pub summary: bool,
}

/// Decides whether a number may be that of departures.
pub(crate) fn may_be_departures(number: u64) -> bool
    ensures { IsTrue result ↔ (number ≤ 16) }
{
    number <= MOST_DEPARTURES
}

/// Decides whether a number may be that of runs.
pub(crate) fn may_be_runs(number: u64) -> bool
    ensures { IsTrue result ↔ (0 < number) × (number ≤ 10 ^ 9) }
{
    number > 0 && number <= MOST_RUNS
}

/// Decides whether a number may be that of workers.
pub(crate) fn may_be_workers(number: u64) -> bool
    ensures { IsTrue result ↔ (0 < number) × (number ≤ 64) }
{
    number > 0 && number <= MOST_WORKERS
}

/// Returns the greatest number of departures of a run.
fn departures_of(matches: &ArgMatches<'_>) -> Result<u64, WordsFault>
    ensures { IfOk result (λ departures. departures ≤ 16) }
{
    let departures = number_or(matches, DEPARTURES, DEFAULT_DEPARTURES)?;
    if may_be_departures(departures) {
        Ok(departures)
    } else {
        Err(WordsFault::Words)
    }
}

/// Returns the maximum number of runs, or the default if the words don't say it.
pub(crate) fn runs_or(matches: &ArgMatches<'_>, default: u64) -> Result<u64, WordsFault>
    ensures { IfOk result (λ runs. (0 < runs) × (runs ≤ 10 ^ 9)) }
{
    let runs = number_or(matches, RUNS, default)?;
    if may_be_runs(runs) {
        Ok(runs)
    } else {
        Err(WordsFault::Words)
    }
}

/// Returns the number of workers.
fn workers_of(matches: &ArgMatches<'_>) -> Result<u64, WordsFault>
    ensures { IfOk result (λ workers. (0 < workers) × (workers ≤ 64)) }
{
    let workers = number_or(matches, WORKERS, DEFAULT_WORKERS)?;
    if may_be_workers(workers) {
        Ok(workers)
    } else {
        Err(WordsFault::Words)
    }
}

/// Returns the patterns of the methods in which threads may be left.
fn within_of<'a>(alloc: Global, matches: &ArgMatches<'a>) -> Result<Vec<&'a str>, WordsFault> {
    let mut patterns = Vec::new(alloc);
    if let Some(words) = matches.get_strs(WITHIN) {
        for word in words {
            patterns.push(*word)?;
        }
    }
    Ok(patterns)
}

/// Decides whether the number of a part is below the number of parts, and that number within its limit.
pub(crate) fn may_be_part(part: Part) -> bool
    ensures { IsTrue result ↔ (part.index < part.count) × (part.count ≤ 10 ^ 6) }
{
    part.index < part.count && part.count <= MOST_PARTS
}

/// Reads a part, as in `0/4`.
pub(crate) fn part_in(word: &str) -> Option<Part>
    ensures { IfSome result (λ part. (part.index < part.count) × (part.count ≤ 10 ^ 6)) }
{
    let (index, count) = word.split_once('/')?;
    let part = Part {
        index: natural_of(index)?,
        count: natural_of(count)?,
    };
    if may_be_part(part) { Some(part) } else { None }
}

/// Returns the part of the schedules that is explored.
fn part_of(matches: &ArgMatches<'_>) -> Result<Option<Part>, WordsFault>
    ensures { IfOk result (λ part. IfSome part (λ part. (part.index < part.count) × (part.count ≤ 10 ^ 6))) }
{
    let Some(word) = matches.get_str(PART) else {
        return Ok(None);
    };
    match part_in(word) {
        Some(part) => Ok(Some(part)),
        None => Err(WordsFault::Words),
    }
}

/// Returns the words of `explore`.
pub(crate) fn explore_words<'a>(
    alloc: Global,
    matches: &ArgMatches<'a>,
) -> Result<ExploreWords<'a>, WordsFault>
    ensures { IfOk result (λ words. AreWithin words) }
{
    let departures = departures_of(matches)?;
    let runs = runs_or(matches, DEFAULT_RUNS)?;
    let workers = workers_of(matches)?;
    let part = part_of(matches)?;
    let most = most_or(matches, DEFAULT_MOST)?;
    Ok(ExploreWords {
        program: program_words(alloc, matches)?,
        spec: matches.get_str(SPECIFICATION),
        departures,
        within: within_of(alloc, matches)?,
        part,
        runs,
        workers,
        most,
        most_text: matches.get_str(MOST),
        all: matches.get_flag(ALL),
        summary: matches.get_flag(SUMMARY),
    })
}
