//! The run of a job.

ghost use Rattle.std.specs.Prelude.{◌≡◌, [], IfOk, IsTrue, MatchOption};
ghost use Rattle.campaign_jobs.specs.Plans.{fits};
ghost use Rattle.campaign_jobs.specs.Atomicities.{atomicity_of};
ghost use Rattle.campaign_jobs.specs.Named.{IsJobOf};
ghost use Rattle.campaign_jobs.specs.Reports.{HasNoSerialOrder, IsSerialOf, job_shown};
ghost use Rattle.program_runs.specs.Judgements.{IsFedWith};
ghost use Rattle.program_runs.specs.Shown.{HasEnding};

use crate::plan::Plan;
use crate::report::Report;
use crate::result::{Atomicity, JobResult};
use program::Program;
use program_runs::atom_graph::Checker;
use program_runs::feed_program;
use program_runs::runs::Ending;
use std::alloc::{AllocError, Global};
use velodrome::verdict::Verdict;

/// Runs a job, feeds its items to a checker, and returns how the run ended.
fn feed_job(
    alloc: Global,
    program: &Program,
    plan: &Plan,
    number: u64,
    checker: &mut Checker,
) -> Result<Ending, AllocError>
    requires fits { IsTrue (fits program.now plan.now) }
    requires fresh { checker.old.items ≡ [] }
    ensures ending { IfOk result (λ ending.
        HasEnding (job_shown program.now plan.now number) ending) }
    ensures fed { IfOk result (λ _. IsFedWith
        (job_shown program.now plan.now number) checker.old.lines checker.new) }
{
    let mut chooser = plan.chooser_of(number);
    let limits = plan.limits;
    let entry = &plan.entry;
    match feed_program(
        alloc,
        program,
        limits,
        entry,
        &mut chooser,
        plan.most,
        checker,
    ) {
        Ok(ending) => Ok(ending),
        // A plan that fits is refused only for lack of memory.
        Err(_) => Err(AllocError),
    }
}

/// Returns the atomicity that a verdict shows.
pub fn atomicity_of(verdict: Verdict) -> Atomicity
    ensures { result ≡ atomicity_of verdict }
{
    match verdict {
        Verdict::Atomic { .. } => Atomicity::Atomic,
        Verdict::Cycle { first_at, .. } => Atomicity::Cycle { first_at },
    }
}

/// Runs a job and returns its report. Waits for no other thread.
///
/// # Errors
///
/// Memory ran out.
pub fn run_job<'a>(
    alloc: Global,
    program: &'a Program,
    plan: &'a Plan,
    number: u64,
) -> Result<Report<'a>, AllocError>
    requires fits { IsTrue (fits program.now plan.now) }
    // The report is of this program, plan and number. Its type ensures that the result is that job's.
    ensures named { IfOk result (λ report. IsJobOf report program.now plan.now number) }
{
    let mut checker = Checker::new(alloc, plan.spec.copy()?)?;
    let ending = feed_job(alloc, program, plan, number, &mut checker)?;
    let result = JobResult {
        atomicity: atomicity_of(checker.verdict()?),
        status: ending.status,
        turns: ending.turns,
        events: checker.counts().events,
    };
    Ok(Report {
        program,
        plan,
        number,
        result,
    })
}

/// Runs a job and returns the numbers of its events in a serial order, or `None` if the run has a cycle.
///
/// # Errors
///
/// Memory ran out.
pub fn serial_of(
    alloc: Global,
    program: &Program,
    plan: &Plan,
    number: u64,
) -> Result<Option<Vec<u64>>, AllocError>
    requires fits { IsTrue (fits program.now plan.now) }
    ensures { IfOk result (λ order. MatchOption order
        (HasNoSerialOrder program.now plan.now number)
        (λ numbers. IsSerialOf program.now plan.now number numbers.items)) }
{
    let mut checker = Checker::new(alloc, plan.spec.copy()?)?;
    feed_job(alloc, program, plan, number, &mut checker)?;
    checker.serial()
}
