//! Shrinks the schedule of a run that fails.

ghost use Rattle.std.specs.Prelude.{IsTrue};
ghost use Rattle.explore_jobs.specs.Plans.{fits};

use departures::Departure;
use exploration_text::schedule_text;
use explore_jobs::Plan;
use exploring::FailingRun;
use program::Program;
use refused::again;
use shrinking::{Failure, Shrunk, shrink};
use std::alloc::{AllocError, Global};

/// The greatest number of runs.
const RUNS: u64 = 100;

/// Leaves out departures of a schedule.
fn leave_out(
    alloc: Global,
    program: &Program,
    plan: &Plan,
    departures: &[Departure],
    failure: Failure,
) -> Result<Shrunk, AllocError>
    requires { IsTrue (fits program.now plan.now) }
{
    let departures = Vec::from_slice(alloc, departures)?;
    shrink(alloc, program, plan, departures, failure, RUNS)
}

/// Shrinks the schedule of a run that fails, and prints what is left.
pub(crate) fn perform(
    host: &HostRuntime,
    program: &Program,
    plan: &Plan,
    run: &FailingRun,
) -> Option<()>
    requires { IsTrue (fits program.now plan.now) }
{
    let failure = Failure::of(run.fate)?;
    let departures = run.departures.as_slice();
    let shrunk = again!(
        host,
        "shrink",
        leave_out(host.alloc(), program, plan, departures, failure)
    )?;
    let schedule = again!(
        host,
        "schedule_text",
        schedule_text(host.alloc(), shrunk.departures.as_slice())
    )?;
    println!(host; "{schedule}").ok()
}
