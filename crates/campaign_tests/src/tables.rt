//! Tables of campaigns, and audits of them.

ghost use Rattle.std.specs.Prelude.{IsTrue, OnOk};
ghost use Rattle.campaign_jobs.specs.Plans.{fits};

use crate::gates::{HoldsFirst, Meets};
use crate::plans::{FORKS, HELLO, campaign_of};
use campaign::{
    Atomicity, DeskFault, Gate, Halted, JobResult, OpenGate, Plan, Table, audit, run_campaign,
    serial_of,
};
use machine::Status;
use program::Program;
use std::alloc::Global;
use std::process::Abort;
use std::sync::Wait;
use std::sync::atomic::{AtomicU64, Ordering};
use std::test::*;
use std::thread::Threads;

/// The result of each job of `HELLO`.
const GREETED: JobResult = JobResult {
    atomicity: Atomicity::Atomic,
    status: Status::Finished,
    turns: 7,
    events: 0,
};

/// Runs a campaign whose plan fits, and returns its table. The test fails if there is none, or if an audit finds a
/// result that differs.
fn table_of<G: Gate + Sync, R: Threads + Wait + Sync>(
    rt: &R,
    alloc: Global,
    program: &Program,
    plan: &Plan,
    workers: u64,
    gate: &G,
) -> Result<Table, Fail>
    ensures { OnOk result (IsTrue (fits program.now plan.now)) }
{
    if !plan.fits(program) {
        return Err(Fail::new("a plan fits no program"));
    }
    let Ok(table) = run_campaign(rt, alloc, program, plan, workers, gate) else {
        return Err(Fail::new("a campaign halted"));
    };
    if !audit(rt, alloc, program, plan, &table)?.is_empty() {
        return Err(Fail::new("an audit found a result that is right"));
    }
    Ok(table)
}

/// Returns `None` for an empty table.
fn none_if_empty(table: &Table) -> Result<Option<DeskFault>, Fail> {
    if table.results.is_empty() {
        Ok(None)
    } else {
        Err(Fail::new("a table has results"))
    }
}

/// Returns why a campaign halts, or `None` if it has an empty table.
fn halt_of<R: Threads + Wait + Sync>(
    rt: &R,
    alloc: Global,
    program: &Program,
    plan: &Plan,
    workers: u64,
) -> Result<Option<DeskFault>, Fail> {
    if !plan.fits(program) {
        return Err(Fail::new("a plan fits no program"));
    }
    match run_campaign(rt, alloc, program, plan, workers, &OpenGate) {
        Ok(table) => none_if_empty(&table),
        Err(Halted::TooManyJobs) => Ok(Some(DeskFault::TooManyJobs)),
        Err(Halted::TooManyWorkers) => Ok(Some(DeskFault::TooManyWorkers)),
        Err(_) => Ok(Some(DeskFault::Memory)),
    }
}

/// Runs two jobs at a gate that holds the first until the second is done.
fn runs_held<R: Threads + Wait + Sync + Abort>(
    rt: &R,
    alloc: Global,
    program: &Program,
    plan: &Plan,
) -> Result<(), Fail> {
    for workers in [2, 64] {
        let gate = HoldsFirst {
            done: AtomicU64::new(0),
            late: AtomicU64::new(0),
        };
        let table = table_of(rt, alloc, program, plan, workers, &gate)?;
        assert_eq!(rt; table.results.as_slice(), [GREETED, GREETED].as_slice());
        assert_eq!(rt; gate.late.load(Ordering::SeqCst), 0);
    }
    let table = table_of(rt, alloc, program, plan, 1, &OpenGate)?;
    assert_eq!(rt; table.results.as_slice(), [GREETED, GREETED].as_slice());
    Ok(())
}

/// Runs eight jobs at a gate where all of them meet.
fn runs_met<R: Threads + Wait + Sync + Abort>(
    rt: &R,
    alloc: Global,
    program: &Program,
    plan: &Plan,
) -> Result<(), Fail> {
    let gate = Meets {
        came: AtomicU64::new(0),
        wanted: 8,
        late: AtomicU64::new(0),
    };
    let table = table_of(rt, alloc, program, plan, 8, &gate)?;
    assert_eq!(rt; table.results.as_slice(), [GREETED; 8].as_slice());
    assert_eq!(rt; gate.late.load(Ordering::SeqCst), 0);
    Ok(())
}

/// Runs jobs with a cycle on one worker and on more. The tables must be equal and have `jobs` results.
fn runs_alike<R: Threads + Wait + Sync + Abort>(
    rt: &R,
    alloc: Global,
    program: &Program,
    plan: &Plan,
    jobs: usize,
) -> Result<(), Fail> {
    let alone = table_of(rt, alloc, program, plan, 1, &OpenGate)?;
    assert_eq!(rt; alone.results.len(), jobs);
    for job in &alone.results {
        assert!(rt; job.atomicity.has_cycle());
    }
    for workers in [3, 64] {
        let table = table_of(rt, alloc, program, plan, workers, &OpenGate)?;
        assert_eq!(rt; table.results.as_slice(), alone.results.as_slice());
    }
    Ok(())
}

/// Changes one result of a table of eight jobs. An audit must find only its number.
fn finds_changed<R: Threads + Wait + Sync + Abort>(
    rt: &R,
    alloc: Global,
    program: &Program,
    plan: &Plan,
) -> Result<(), Fail> {
    let mut table = table_of(rt, alloc, program, plan, 3, &OpenGate)?;
    assert_eq!(rt; table.results.len(), 8);
    table.results[5].turns = 8;
    let found = audit(rt, alloc, program, plan, &table)?;
    assert_eq!(rt; found.as_slice(), [5].as_slice());
    Ok(())
}

/// Returns the number of events in the serial order of job 0, if it has one.
fn serial_events(alloc: Global, program: &Program, plan: &Plan) -> Result<Option<usize>, Fail> {
    if !plan.fits(program) {
        return Err(Fail::new("a plan fits no program"));
    }
    match serial_of(alloc, program, plan, 0)? {
        Some(order) => Ok(Some(order.len())),
        None => Ok(None),
    }
}

#[test]
fn a_job_that_is_held_overlaps_another(rt: HostRuntime) -> Result<(), Fail> {
    let (program, plan) = campaign_of(rt.alloc(), HELLO, "plain *", 2, false)?;
    let ran = runs_held(&rt, rt.alloc(), &program, &plan);
    drop(plan);
    drop(program);
    ran
}

#[test]
fn eight_jobs_meet_on_eight_workers(rt: HostRuntime) -> Result<(), Fail> {
    let (program, plan) = campaign_of(rt.alloc(), HELLO, "plain *", 8, false)?;
    let ran = runs_met(&rt, rt.alloc(), &program, &plan);
    drop(plan);
    drop(program);
    ran
}

#[test]
fn an_audit_finds_what_was_changed(rt: HostRuntime) -> Result<(), Fail> {
    let (program, plan) = campaign_of(rt.alloc(), HELLO, "plain *", 8, false)?;
    let ran = finds_changed(&rt, rt.alloc(), &program, &plan);
    drop(plan);
    drop(program);
    ran
}

#[test]
fn limits_are_tested_in_their_order(rt: HostRuntime) -> Result<(), Fail> {
    let cases = [
        (0, 1, None),
        (1, 65, Some(DeskFault::TooManyWorkers)),
        (1, 0, Some(DeskFault::TooManyWorkers)),
        (1_000_001, 65, Some(DeskFault::TooManyJobs)),
    ];
    for (jobs, workers, wanted) in cases {
        let (program, plan) = campaign_of(rt.alloc(), HELLO, "plain *", jobs, false)?;
        let halted = halt_of(&rt, rt.alloc(), &program, &plan, workers);
        drop(plan);
        drop(program);
        assert_eq!(rt; halted?, wanted);
    }
    Ok(())
}

#[test]
fn tables_are_those_of_one_worker(rt: HostRuntime) -> Result<(), Fail> {
    for (stop, jobs) in [(true, 1), (false, 20)] {
        let (program, plan) = campaign_of(rt.alloc(), FORKS, "atomic Main.main", 20, stop)?;
        let ran = runs_alike(&rt, rt.alloc(), &program, &plan, jobs);
        drop(plan);
        drop(program);
        ran?;
    }
    Ok(())
}

#[test]
fn a_serial_order_is_that_of_an_atomic_job(rt: HostRuntime) -> Result<(), Fail> {
    for (source, wanted) in [(HELLO, Some(0)), (FORKS, None)] {
        let (program, plan) = campaign_of(rt.alloc(), source, "atomic Main.main", 1, false)?;
        let found = serial_events(rt.alloc(), &program, &plan);
        drop(plan);
        drop(program);
        assert_eq!(rt; found?, wanted);
    }
    Ok(())
}
