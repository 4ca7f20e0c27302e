//! Runs the campaign of a plan.

ghost use Rattle.std.specs.Prelude.{IsTrue};
ghost use Rattle.campaign_jobs.specs.Plans.{fits};

use super::book::judge;
use super::gate::HoldsFirst;
use super::plans::plan_of;
use campaign::{Halted, Plan, Table, run_campaign};
use campaign_text::table_text;
use program::Program;
use refused::again;
use std::alloc::Global;
use std::sync::Wait;
use std::thread::Threads;

/// Runs a campaign.
fn run<'a, R: Threads + Wait + Sync>(
    rt: &R,
    alloc: Global,
    program: &'a Program,
    plan: &'a Plan,
    workers: u64,
) -> Result<Table, Halted<'a>>
    requires { IsTrue (fits program.now plan.now) }
{
    let gate = HoldsFirst::of(workers);
    run_campaign(rt, alloc, program, plan, workers, &gate)
}

/// Prints why a campaign halted. Returns `None` if it wasn't for lack of memory.
fn print_halt(
    host: &HostRuntime,
    program: &Program,
    plan: &Plan,
    workers: u64,
    halted: &Halted<'_>,
) -> Option<()>
    requires { IsTrue (fits program.now plan.now) }
{
    match halted {
        Halted::WorkerFailed { book, .. } => judge(host, program, plan, workers, book),
        Halted::Memory => eprintln!(host; "run_campaign: G04 Memory").ok(),
        Halted::TooManyJobs | Halted::TooManyWorkers => None,
    }
}

/// Runs a campaign, and runs it again if it halts. Returns its table, if there is one.
fn run_again<R: Threads + Wait + Sync>(
    host: &HostRuntime,
    rt: &R,
    program: &Program,
    plan: &Plan,
    workers: u64,
) -> Option<Table>
    requires { IsTrue (fits program.now plan.now) }
{
    match run(rt, host.alloc(), program, plan, workers) {
        Ok(table) => Some(table),
        Err(halted) => {
            print_halt(host, program, plan, workers, &halted)?;
            run(rt, host.alloc(), program, plan, workers).ok()
        }
    }
}

/// Runs the campaign of a plan, and prints its table.
fn print<R: Threads + Wait + Sync>(
    host: &HostRuntime,
    rt: &R,
    program: &Program,
    plan: &Plan,
    workers: u64,
) -> Option<()> {
    if !plan.fits(program) {
        return None;
    }
    let table = run_again(host, rt, program, plan, workers)?;
    let text = again!(host, "table_text", table_text(host.alloc(), 0, &table))?;
    print!(host; "{text}").ok()
}

/// Runs the campaign of a program that the arguments name, and prints its table.
pub(crate) fn perform<R: Threads + Wait + Sync>(
    host: &HostRuntime,
    rt: &R,
    program: &Program,
    words: &[String],
    workers: u64,
) -> Option<()> {
    let jobs = words.first()?.parse().ok()?;
    let (spec, class) = (words.get(2)?, words.get(3)?);
    let plan = plan_of(host, jobs, spec.as_str(), class.as_str())?;
    let printed = print(host, rt, program, &plan, workers);
    drop(plan);
    printed
}
