//! The table of a campaign, made from its book.

ghost use Rattle.std.specs.Prelude.{◌≡◌, ℕ, ◌<◌, IfOk, IfErr, IsTrue, None, true, ◌&&◌};
ghost use Rattle.campaign.specs.Tables.{HasNoCycle, IsTable};
ghost use Rattle.campaign_book.specs.declared.fault.StoreFault.TheVariants.{Memory};
ghost use Rattle.campaign_book.specs.Rows.{row_at};
ghost use Rattle.campaign_jobs.specs.Plans.{fits};
ghost use Rattle.campaign_jobs.specs.Atomicities.{has_cycle};
ghost use Rattle.campaign_jobs.specs.Reports.{IsResultOf};

use campaign_book::{Book, BookEntry, Row, StoreFault};
use campaign_jobs::{JobResult, Plan, run_job};
use program::Program;
use std::alloc::Global;

/// The results of a campaign's jobs, from number 0 on.
#[derive(Debug, Drop)]
pub struct Table {
    pub results: Vec<JobResult>,
}

/// Runs a job that has no entry yet, and stores its report.
fn run_missing<'a>(
    alloc: Global,
    book: &mut Book<'a>,
    program: &'a Program,
    plan: &'a Plan,
    number: u64,
) -> Result<JobResult, StoreFault>
    requires program { book.old.program ≡ program.now }
    requires plan { book.old.plan ≡ plan.now }
    requires fits { IsTrue (fits program.now plan.now) }
    requires job { number < plan.now.jobs }
    requires missing { row_at number book.old.rows ≡ None }
    ensures program { book.new.program ≡ program.now }
    ensures plan { book.new.plan ≡ plan.now }
    ensures right { IfOk result (IsResultOf program.now plan.now number) }
    ensures memory { IfErr result (λ fault. fault ≡ Memory) }
{
    let Ok(report) = run_job(alloc, program, plan, number) else {
        return Err(StoreFault::Memory);
    };
    let result = report.result;
    match book.store(BookEntry::Done(report)) {
        Ok(()) => Ok(result),
        Err(fault) => Err(fault),
    }
}

/// Returns the result of a job that the table needs. It is the book's, or else that of a run, which is then stored.
fn result_at<'a>(
    alloc: Global,
    book: &mut Book<'a>,
    program: &'a Program,
    plan: &'a Plan,
    number: u64,
) -> Result<JobResult, StoreFault>
    requires program { book.old.program ≡ program.now }
    requires plan { book.old.plan ≡ plan.now }
    requires fits { IsTrue (fits program.now plan.now) }
    requires job { number < plan.now.jobs }
    // If the plan stops, no job of a smaller number has a cycle.
    requires needed { plan.now.stop ≡ true → (k : ℕ) → k < number
        → HasNoCycle program.now plan.now k }
    ensures program { book.new.program ≡ program.now }
    ensures plan { book.new.plan ≡ plan.now }
    ensures right { IfOk result (IsResultOf program.now plan.now number) }
    ensures memory { IfErr result (λ fault. fault ≡ Memory) }
{
    match book.find(number) {
        Some(Row::Done { result, .. }) => Ok(result),
        Some(Row::Skipped { .. }) => unreachable!(),
        None => run_missing(alloc, book, program, plan, number),
    }
}

/// Returns whether a table ends with this result.
fn is_last(plan: &Plan, last: JobResult) -> bool
    ensures { result ≡ (plan.now.stop && has_cycle last.atomicity) }
{
    plan.stop && last.atomicity.has_cycle()
}

/// Returns the table of a book's program and plan. Runs and stores the jobs that it needs and the book lacks.
///
/// # Errors
///
/// Memory ran out.
pub(crate) fn table_of<'a>(
    alloc: Global,
    book: &mut Book<'a>,
    program: &'a Program,
    plan: &'a Plan,
) -> Result<Table, StoreFault>
    requires program { book.old.program ≡ program.now }
    requires plan { book.old.plan ≡ plan.now }
    requires fits { IsTrue (fits program.now plan.now) }
    ensures program { book.new.program ≡ program.now }
    ensures plan { book.new.plan ≡ plan.now }
    ensures table { IfOk result (λ table. IsTable program.now plan.now table.results.items) }
    ensures memory { IfErr result (λ fault. fault ≡ Memory) }
{
    let mut results = Vec::new(alloc);
    for number in 0..plan.jobs {
        let result = match result_at(alloc, book, program, plan, number) {
            Ok(result) => result,
            Err(fault) => return Err(fault),
        };
        if results.push(result).is_err() {
            return Err(StoreFault::Memory);
        }
        if is_last(plan, result) {
            return Ok(Table { results });
        }
    }
    Ok(Table { results })
}
