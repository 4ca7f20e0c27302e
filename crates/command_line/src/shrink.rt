//! Reads the words of `shrink`.

ghost use Rattle.std.specs.Prelude.{◌^◌, ◌<◌, ◌≤◌, IfOk};

use crate::explore::{DEFAULT_MOST, runs_or};
use crate::fault::WordsFault;
use crate::program_words::{ProgramWords, most_or, program_words};
use crate::syntax::{MOST, SCHEDULE, SPECIFICATION, SUMMARY};
use clap::ArgMatches;
use std::alloc::Global;
use turn_limit::TurnLimit;

/// The number of runs without `--runs`.
const DEFAULT_RUNS: u64 = 10_000;

/// The words of `shrink`.
#[derive(Debug, Drop)]
pub struct ShrinkWords<'a> {
    pub program: ProgramWords<'a>,
    /// The schedule, as spelled in the words. It may be no schedule.
    pub schedule: &'a str,
    /// The file with the specification of which methods are to be atomic. Without it no run is judged.
    pub spec: Option<&'a str>,
    /// The maximum number of runs, from 1 to 1,000,000,000.
    pub runs: u64,
    /// The maximum number of turns of each run.
    pub most: TurnLimit,
    /// The word for the maximum number of turns, if there is one.
    pub most_text: Option<&'a str>,
    /// `true` if a summary is printed even if standard error is no terminal.
    pub summary: bool,
}

/// Returns the words of `shrink`.
pub(crate) fn shrink_words<'a>(
    alloc: Global,
    matches: &ArgMatches<'a>,
) -> Result<ShrinkWords<'a>, WordsFault>
    ensures some { IfOk result (λ words. 0 < words.runs) }
    ensures runs { IfOk result (λ words. words.runs ≤ 10 ^ 9) }
{
    let runs = runs_or(matches, DEFAULT_RUNS)?;
    let most = most_or(matches, DEFAULT_MOST)?;
    let schedule = matches.get_str(SCHEDULE).ok_or(WordsFault::Words)?;
    Ok(ShrinkWords {
        program: program_words(alloc, matches)?,
        schedule,
        spec: matches.get_str(SPECIFICATION),
        runs,
        most,
        most_text: matches.get_str(MOST),
        summary: matches.get_flag(SUMMARY),
    })
}
