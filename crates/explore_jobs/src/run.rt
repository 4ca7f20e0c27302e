//! The run of a job.

ghost use Rattle.std.specs.Prelude.{◌≡◌, [], IfOk, IsTrue};
ghost use Rattle.explore_jobs.specs.Fates.{IsFateOf};
ghost use Rattle.explore_jobs.specs.Plans.{fits, job_shown};
ghost use Rattle.campaign_jobs.specs.program_runs.Judgements.{IsFedWith};
ghost use Rattle.campaign_jobs.specs.program_runs.Shown.{HasEnding};

use crate::fate::Fate;
use crate::plan::Plan;
use atom_graph::Checker;
use campaign_jobs::program_runs::{feed_program, run_program};
use campaign_jobs::runs::Ending;
use campaign_jobs::schedule::Chooser;
use campaign_jobs::{JobResult, atomicity_of};
use departures::Departure;
use program::Program;
use std::alloc::{AllocError, Global};

/// Runs a job, feeds its items to a checker, and returns how the run ended.
fn feed_job(
    alloc: Global,
    program: &Program,
    plan: &Plan,
    departures: &[Departure],
    checker: &mut Checker,
) -> Result<Ending, AllocError>
    requires fits { IsTrue (fits program.now plan.now) }
    requires fresh { checker.old.items ≡ [] }
    ensures ending { IfOk result (λ ending.
        HasEnding (job_shown program.now plan.now departures.now) ending) }
    ensures fed { IfOk result (λ _. IsFedWith
        (job_shown program.now plan.now departures.now) checker.old.lines checker.new) }
{
    let mut chooser = Chooser::staying(alloc, Vec::from_slice(alloc, departures)?)?;
    let limits = plan.limits;
    let entry = &plan.entry;
    match feed_program(
        alloc,
        program,
        limits,
        entry,
        &mut chooser,
        plan.most,
        checker,
    ) {
        Ok(ending) => Ok(ending),
        // A plan that fits is refused only for lack of memory.
        Err(_) => Err(AllocError),
    }
}

/// Runs the job with these departures and returns its fate. Waits for no other thread.
///
/// # Errors
///
/// Memory ran out.
pub fn run_job(
    alloc: Global,
    program: &Program,
    plan: &Plan,
    departures: &[Departure],
) -> Result<Fate, AllocError>
    requires fits { IsTrue (fits program.now plan.now) }
    ensures { IfOk result (IsFateOf program.now plan.now departures.now) }
{
    let mut checker = Checker::new(alloc, plan.spec.copy()?)?;
    let ending = feed_job(alloc, program, plan, departures, &mut checker)?;
    let result = JobResult {
        atomicity: atomicity_of(checker.verdict()?),
        status: ending.status,
        turns: ending.turns,
        events: checker.counts().events,
    };
    Ok(Fate {
        result,
        has_uncaught: ending.uncaught.len() > 0,
    })
}

/// Runs the job with these departures and returns the ending of its run: its output, and which threads ended by an exception.
///
/// # Errors
///
/// Memory ran out, or no machine fits the plan.
pub fn job_ending(
    alloc: Global,
    program: &Program,
    plan: &Plan,
    departures: &[Departure],
) -> Result<Ending, AllocError>
    ensures { IfOk result (λ ending. HasEnding (job_shown program.now plan.now departures.now) ending) }
{
    let mut chooser = Chooser::staying(alloc, Vec::from_slice(alloc, departures)?)?;
    let most = plan.most.turns();
    match run_program(alloc, program, plan.limits, &plan.entry, &mut chooser, most) {
        Ok(ending) => Ok(ending),
        Err(_) => Err(AllocError),
    }
}
