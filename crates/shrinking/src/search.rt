//! The search for departures that can be left out.

ghost use Rattle.std.specs.Prelude.{◌≡◌, ◌<◌, ◌≤◌, false, true, IfOk, IsTrue};
ghost use Rattle.explore_jobs.specs.Fates.{IsFateOf};
ghost use Rattle.explore_jobs.specs.Plans.{fits};
ghost use Rattle.shrinking.specs.Failures.{fails_by};
ghost use Rattle.shrinking.specs.Least.{IsLeast, IsTestOf};
ghost use Rattle.shrinking.specs.Parts.{IsPartOf};

use crate::failure::Failure;
use crate::shrunk::{Pass, Shrunk};
use departures::Departure;
use explore_jobs::{Plan, run_job};
use program::Program;
use std::alloc::{AllocError, Global};

/// Leaves out departures of a job, as long as its run fails in the same way, and returns those that are left. Tries to leave
/// out all, halves, quarters, and so on, and then single ones, until no single one can be left out or `runs` runs were made
/// (Zeller and Hildebrandt, Simplifying and isolating failure-inducing input, 2002). If the job's run doesn't fail in this
/// way, leaves out nothing. Waits for no other thread.
///
/// # Errors
///
/// Memory ran out.
pub fn shrink(
    alloc: Global,
    program: &Program,
    plan: &Plan,
    departures: Vec<Departure>,
    failure: Failure,
    runs: u64,
) -> Result<Shrunk, AllocError>
    requires fits { IsTrue (fits program.now plan.now) }
    requires runs { 0 < runs }
    ensures part { IfOk result (λ shrunk. IsPartOf shrunk.departures.items departures.items) }
    ensures fate { IfOk result (λ shrunk.
        IsFateOf program.now plan.now shrunk.departures.items shrunk.fate) }
    // The run of the departures that are left fails in this way just if that of all departures does.
    ensures test { IfOk result (λ shrunk. IsTestOf program.now plan.now failure
        departures.items (fails_by plan.now.most failure shrunk.fate)) }
    ensures whole { IfOk result (λ shrunk. fails_by plan.now.most failure shrunk.fate ≡ false
        → shrunk.departures.items ≡ departures.items) }
    ensures least { IfOk result (λ shrunk. IsTrue shrunk.is_least
        → IsLeast program.now plan.now failure shrunk.departures.items) }
    ensures runs { IfOk result (λ shrunk. shrunk.runs ≤ runs) }
    ensures stops { IfOk result (λ shrunk. shrunk.is_least ≡ false
        → fails_by plan.now.most failure shrunk.fate ≡ true → shrunk.runs ≡ runs) }
{
    let fate = run_job(alloc, program, plan, departures.as_slice())?;
    let mut pass = Pass {
        from: 0,
        size: departures.len(),
        has_left_out: false,
    };
    let mut shrunk = Shrunk {
        is_least: departures.is_empty(),
        departures,
        fate,
        runs: 1,
    };
    if !failure.is_of_job(fate, plan.most) {
        return Ok(shrunk);
    }
    while shrunk.runs < runs && !shrunk.is_least {
        pass = shrunk.leave_out(alloc, program, plan, failure, pass)?;
    }
    Ok(shrunk)
}
