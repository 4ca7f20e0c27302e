//! The audit of a table: runs its jobs again.

ghost use Rattle.std.specs.Prelude.{◌≡◌, ◌<◌, ◌↔◌, IfOk, IsTrue, length};
ghost use Rattle.campaign.specs.Audits.{AreDifferent, IsFinding, IsFindingAt};
ghost use Rattle.campaign_jobs.specs.Plans.{fits};

use crate::table::Table;
use campaign_jobs::{JobResult, Plan, run_job};
use program::Program;
use rayon::prelude::*;
use std::alloc::{AllocError, Global};
use std::thread::Threads;

/// Returns whether two results are equal.
fn is_same(first: JobResult, second: JobResult) -> bool
    ensures { IsTrue result ↔ first ≡ second }
{
    first == second
}

/// Runs a job again, and returns its number if the table has another result.
///
/// # Errors
///
/// Memory ran out.
#[tactic(auto, using(campaign_jobs::proofs::OneResult::is_one), unfolding(crate::specs::Audits::IsFinding))]
fn finding(
    alloc: Global,
    program: &Program,
    plan: &Plan,
    number: u64,
    in_table: JobResult,
) -> Option<Result<u64, AllocError>>
    requires fits { IsTrue (fits program.now plan.now) }
    ensures { IsFinding program.now plan.now number in_table result }
{
    let Ok(report) = run_job(alloc, program, plan, number) else {
        return Some(Err(AllocError));
    };
    if is_same(report.result, in_table) {
        return None;
    }
    Some(Ok(number))
}

/// Runs the jobs of a table again, and returns the numbers of those whose result differs, in ascending order. The
/// threads are those of `rayon`.
///
/// # Errors
///
/// Memory ran out.
pub fn audit(
    rt: &(impl Threads + Sync),
    alloc: Global,
    program: &Program,
    plan: &Plan,
    table: &Table,
) -> Result<Vec<u64>, AllocError>
    requires fits { IsTrue (fits program.now plan.now) }
    ensures { IfOk result (λ numbers.
        AreDifferent program.now plan.now 0 table.now.results.items numbers.items) }
{
    (0..table.results.len() as u64)
        .into_par_iter()
        // Each job is worth a thread of its own. By default all jobs share one thread if they are fewer than 2,048.
        .with_min_len(1)
        .filter_map(
            |number: u64| -> Option<Result<u64, AllocError>>
                requires fits { IsTrue (fits program.now plan.now) }
                requires within { number < length table.now.results.items }
                ensures { IsFindingAt program.entry.now plan.entry.now
                    table.entry.now.results.items number result }
            { finding(alloc, program, plan, number, table.results[number as usize]) },
        )
        .collect::<Result<Vec<u64>, AllocError>>(rt, alloc)?
}
