//! Reads the words of `campaign`.

ghost use Rattle.std.specs.Prelude.{◌↔◌, IfOk, IsTrue};
ghost use Rattle.command_line.specs.JobNumbers.{HasNumbers};

use crate::entry::natural_of;
use crate::fault::WordsFault;
use crate::program_words::{ProgramWords, most_of, number_or, program_words};
use crate::syntax::{FIRST, JOBS, MOST, PRIORITIES, SEED, SPECIFICATION, STOP, SUMMARY, WORKERS};
use clap::ArgMatches;
use priority_limits::Depth;
use std::alloc::Global;
use turn_limit::TurnLimit;

/// The state of the generator of random words without `--seed`.
const DEFAULT_SEED: u64 = 0;

/// The number of workers without `--workers`.
const DEFAULT_WORKERS: u64 = 4;

/// The words of `campaign`.
#[derive(Debug, Drop)]
pub struct CampaignWords<'a> {
    pub program: ProgramWords<'a>,
    /// The file with the specification of which methods are to be atomic.
    pub spec: &'a str,
    /// The number of jobs. It may exceed the limit of a campaign.
    pub jobs: u64,
    /// The number of the first job. No job's number exceeds 18,446,744,073,709,551,615.
    pub first: u64,
    /// The state of the generator of random words.
    pub seed: u64,
    /// The depth of the jobs' priorities. Without it each job chooses at random at each turn.
    pub depth: Option<Depth>,
    /// The number of workers. It may exceed the limit of a campaign.
    pub workers: u64,
    /// The maximum number of turns of each job.
    pub most: TurnLimit,
    /// The word for the maximum number of turns, if there is one.
    pub most_text: Option<&'a str>,
    /// `true` if the campaign stops at the first job with a cycle.
    pub stop: bool,
    /// `true` if a summary is printed even if standard error is no terminal.
    pub summary: bool,
}

/// Decides whether the last job's number is at most 18,446,744,073,709,551,615.
fn has_numbers(first: u64, jobs: u64) -> bool
    ensures { IsTrue result ↔ HasNumbers first jobs }
{
    match jobs.checked_sub(1) {
        Some(further) => first.checked_add(further).is_some(),
        None => true,
    }
}

/// Returns the number of the first job. Refuses the words if a job's number is out of range.
fn first_of(matches: &ArgMatches<'_>, jobs: u64) -> Result<u64, WordsFault>
    ensures { IfOk result (λ first. HasNumbers first jobs) }
{
    let first = number_or(matches, FIRST, 0)?;
    if has_numbers(first, jobs) {
        Ok(first)
    } else {
        Err(WordsFault::Words)
    }
}

/// Returns the depth of the jobs' priorities, if the words have one. Refuses the words if it is out of range.
fn depth_of(matches: &ArgMatches<'_>) -> Result<Option<Depth>, WordsFault> {
    let Some(text) = matches.get_str(PRIORITIES) else {
        return Ok(None);
    };
    let number = natural_of(text).ok_or(WordsFault::Words)?;
    let depth = Depth::new(number).ok_or(WordsFault::Words)?;
    Ok(Some(depth))
}

/// Returns the words of `campaign`.
pub(crate) fn campaign_words<'a>(
    alloc: Global,
    matches: &ArgMatches<'a>,
) -> Result<CampaignWords<'a>, WordsFault>
    ensures { IfOk result (λ words. HasNumbers words.first words.jobs) }
{
    let spec = matches.get_str(SPECIFICATION).ok_or(WordsFault::Words)?;
    let jobs = matches.get_str(JOBS).ok_or(WordsFault::Words)?;
    let jobs = natural_of(jobs).ok_or(WordsFault::Words)?;
    let first = first_of(matches, jobs)?;
    let seed = number_or(matches, SEED, DEFAULT_SEED)?;
    let depth = depth_of(matches)?;
    let workers = number_or(matches, WORKERS, DEFAULT_WORKERS)?;
    let most = most_of(matches)?;
    Ok(CampaignWords {
        program: program_words(alloc, matches)?,
        spec,
        jobs,
        first,
        seed,
        depth,
        workers,
        most,
        most_text: matches.get_str(MOST),
        stop: matches.get_flag(STOP),
        summary: matches.get_flag(SUMMARY),
    })
}
