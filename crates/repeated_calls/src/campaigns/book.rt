//! Verifies the book of a campaign that halted.

ghost use Rattle.std.specs.Prelude.{IsTrue};
ghost use Rattle.campaign_jobs.specs.Plans.{fits};

use campaign::{Book, Plan, Row, Totals, run_job};
use program::Program;
use refused::again;

/// Returns the totals of rows.
fn totals_of(rows: &[Row]) -> Totals {
    let mut totals = Totals {
        rows: 0,
        done: 0,
        cycles: 0,
    };
    for row in rows {
        totals.rows = totals.rows.saturating_add(1);
        totals.done = totals.done.saturating_add(u64::from(row.is_done()));
        totals.cycles = totals.cycles.saturating_add(u64::from(row.is_cycle()));
    }
    totals
}

/// Returns whether a row is the report of its job.
fn is_report(rt: &HostRuntime, program: &Program, plan: &Plan, row: &Row) -> Option<bool>
    requires { IsTrue (fits program.now plan.now) }
{
    let Row::Done { number, result } = row else {
        return Some(false);
    };
    let report = again!(rt, "run_job", run_job(rt.alloc(), program, plan, *number))?;
    Some(report.result == *result)
}

/// Returns whether all rows are the reports of their jobs.
fn are_reports(rt: &HostRuntime, program: &Program, plan: &Plan, rows: &[Row]) -> Option<bool>
    requires { IsTrue (fits program.now plan.now) }
{
    for row in rows {
        if !is_report(rt, program, plan, row)? {
            return Some(false);
        }
    }
    Some(true)
}

/// Prints to standard error how many jobs a book has. Prints to standard output if the book isn't right.
pub(crate) fn judge(
    rt: &HostRuntime,
    program: &Program,
    plan: &Plan,
    workers: u64,
    book: &Book<'_>,
) -> Option<()>
    requires { IsTrue (fits program.now plan.now) }
{
    let totals = book.totals();
    let (rows, jobs) = (totals.rows, plan.jobs);
    eprintln!(rt; "run_campaign: G05 WorkerFailed, {rows} of {jobs} jobs are stored").ok()?;
    // One job at most was refused, and the other workers continued.
    let continued = workers < 2 || rows.saturating_add(1) >= jobs;
    let rows = book.rows();
    if !continued || totals != totals_of(rows) || !are_reports(rt, program, plan, rows)? {
        println!(rt; "the book isn't right").ok()?;
    }
    Some(())
}
