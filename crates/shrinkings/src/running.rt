//! The search for departures of a schedule that can be left out, on the program of class files and sources.

ghost use Rattle.std.specs.Prelude.{◌≡◌, ◌≢◌, ◌<◌, length, true, IfErr, IfOk, IfSome, IsTrue};
ghost use Rattle.explore_jobs.specs.Plans.{fits};
ghost use Rattle.shrinking.specs.Least.{IsTestOf};
ghost use Rattle.shrinkings.specs.Faults.{IsFault, NamesFile};
ghost use Rattle.shrinkings.specs.Programs.{fitting_program, program_for};
ghost use Rattle.shrinkings.specs.Shrunk.{FailsFirst, IsLeftOf, IsShrunkIn};

use crate::fault::ShrinkFault;
use crate::naming::named_departures;
use crate::shrunk_run::ShrunkRun;
use departures::Departure;
use exploration_text::exploring::{FailingRun, Plan};
use explore_jobs::{job_ending, run_job};
use inputs::Input;
use judge::program_of;
use program::Program;
use schedule::Chooser;
use shrinking::laws::a_job_has_one_test;
use shrinking::{Failure, shrink};
use std::alloc::{AllocError, Global};

/// Runs the job with these departures, and returns the first way in which its run fails, or `None` if it doesn't.
fn first_failure(
    alloc: Global,
    program: &Program,
    plan: &Plan,
    departures: &[Departure],
) -> Result<Option<Failure>, AllocError>
    requires fits { IsTrue (fits program.now plan.now) }
    ensures first { IfOk result (FailsFirst program.now plan.now departures.now) }
    ensures fails { IfOk result (λ found. IfSome found (λ failure.
        IsTestOf program.now plan.now failure departures.now true)) }
{
    let fate = run_job(alloc, program, plan, departures)?;
    Ok(Failure::of_job(fate, plan.most))
}

/// Leaves out departures of a job, as long as its run fails in the same way, and returns the run of those that are left.
fn shrink_failing(
    alloc: Global,
    program: &Program,
    plan: &Plan,
    departures: Vec<Departure>,
    failure: Failure,
    runs: u64,
) -> Result<ShrunkRun, AllocError>
    requires fits { IsTrue (fits program.now plan.now) }
    requires fails { IsTestOf program.now plan.now failure departures.items true }
    requires runs { 0 < runs }
    ensures left { IfOk result (IsLeftOf program.now plan.now departures.items runs) }
    ensures failure { IfOk result (λ shrunk. shrunk.failure ≡ failure) }
{
    a_job_has_one_test();
    let shrunk = shrink(alloc, program, plan, departures, failure, runs)?;
    let ending = job_ending(alloc, program, plan, shrunk.departures.as_slice())?;
    Ok(ShrunkRun {
        run: FailingRun {
            departures: shrunk.departures,
            fate: shrunk.fate,
            ending,
        },
        failure,
        runs: shrunk.runs,
        is_least: shrunk.is_least,
    })
}

/// Shrinks the run of a chooser's choices for a program.
fn shrink_program(
    alloc: Global,
    program: &Program,
    plan: &Plan,
    chooser: &mut Chooser,
    runs: u64,
) -> Result<ShrunkRun, ShrinkFault>
    requires runs { 0 < runs }
    ensures shrunk { IfOk result (IsShrunkIn plan.now chooser.old runs
        (fitting_program plan.now program.now)) }
    ensures fault { IfErr result (λ fault. IsFault plan.now chooser.old fault
        (fitting_program plan.now program.now)) }
    ensures named { IfErr result (NamesFile 0) }
    ensures unwritten { IfErr result (λ fault. fault ≢ ShrinkFault.Output) }
{
    let departures = named_departures(alloc, program, plan, chooser)?;
    let Some(failure) = first_failure(alloc, program, plan, departures.as_slice())? else {
        return Err(ShrinkFault::NotFailing);
    };
    let shrunk = shrink_failing(alloc, program, plan, departures, failure, runs)?;
    Ok(shrunk)
}

/// Shrinks the run of a chooser's choices for the program of class files and sources.
#[tactic(auto, unfolding(crate::specs::Programs::program_for))]
pub(crate) fn shrink_inputs(
    alloc: Global,
    inputs: &[Input],
    plan: &Plan,
    chooser: &mut Chooser,
    runs: u64,
) -> Result<ShrunkRun, ShrinkFault>
    requires runs { 0 < runs }
    ensures shrunk { IfOk result (IsShrunkIn plan.now chooser.old runs
        (program_for plan.now inputs.now)) }
    ensures fault { IfErr result (λ fault. IsFault plan.now chooser.old fault
        (program_for plan.now inputs.now)) }
    ensures named { IfErr result (NamesFile (length inputs.now)) }
    ensures unwritten { IfErr result (λ fault. fault ≢ ShrinkFault.Output) }
{
    let program = program_of(alloc, inputs)?;
    let shrunk = shrink_program(alloc, &program, plan, chooser, runs);
    drop(program);
    shrunk
}
