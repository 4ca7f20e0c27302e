//! The run of a campaign.

ghost use Rattle.std.specs.Prelude.{◌≡◌, ◌<◌, ◌≤◌, [], All, replicate, vec_len, vec_capacity, IfOk, IfErr, IfSome, IsTrue};
ghost use Rattle.campaign.specs.Halts.{IsMemory, IsRefusedGrowth, KeepsBook, KeepsLimits};
ghost use Rattle.campaign_book.specs.declared.fault.StoreFault.TheVariants as store_fault;
ghost use Rattle.campaign.specs.Tables.{IsTable};
ghost use Rattle.campaign_desk.specs.Desk.{IsSeatOf, new_seats};
ghost use Rattle.campaign_jobs.specs.Plans.{fits};

use crate::gate::Gate;
use crate::halt::Halted;
use crate::shared::{Campaign, Share, SharedBook};
use crate::table::{Table, table_of};
use crate::worker::{Work, Worker};
use campaign_book::{Book, StoreFault};
use campaign_desk::{Desk, DeskFault, Seat};
use campaign_jobs::Plan;
use program::Program;
use std::alloc::Global;
use std::marker::Brand;
use std::sync::Wait;
use std::sync::ledger::Blank;
use std::thread;
use std::thread::Threads;

/// Gives each worker a seat of a desk and a share.
fn hire<C: Campaign>(
    _desk: &Desk,
    mut workers: Vec<Worker<C>>,
    mut seats: Vec<Seat>,
    shares: &mut Vec<Share<C>>,
) -> Vec<Worker<C>>
    requires none { workers.items ≡ [] }
    requires seats { All (λ s. IsSeatOf _desk.now s) seats.items }
    requires room { (vec_len seats ≡ vec_len shares.old) × (vec_len seats ≤ vec_capacity workers) }
    ensures seats { All (λ w. IsSeatOf _desk.now w.seat) result.items }
    ensures taken { (vec_len shares.new ≡ 0) × (vec_len result ≡ vec_len shares.old) }
    ensures capacity { vec_capacity shares.new ≡ vec_capacity shares.old }
{
    while let Some(seat) = seats.pop() {
        let Some(share) = shares.pop() else {
            unreachable!()
        };
        workers.push_reserved(Worker {
            seat,
            share,
            failed: None,
        });
    }
    workers
}

/// Moves the shares back, and returns why a worker failed, if one did: memory ran out for it.
fn dismiss<C: Campaign>(
    mut workers: Vec<Worker<C>>,
    shares: &mut Vec<Share<C>>,
) -> Option<StoreFault>
    requires room { (vec_len shares.old ≡ 0) × (vec_len workers ≤ vec_capacity shares.old) }
    ensures count { vec_len shares.new ≡ vec_len workers }
    ensures memory { IfSome result (λ fault. fault ≡ store_fault.Memory) }
{
    let mut failed = None;
    while let Some(worker) = workers.pop() {
        if worker.failed.is_some() {
            failed = worker.failed;
        }
        shares.push_reserved(worker.share);
    }
    failed
}

/// Runs a campaign that the type names.
fn run_named<'a, C: Campaign + Send + Sync, G: Gate + Sync, R: Threads + Wait + Sync>(
    rt: &R,
    alloc: Global,
    blank: Blank,
    program: &'a Program,
    plan: &'a Plan,
    gate: &G,
    desk: Desk,
    seats: Vec<Seat>,
    workers: u64,
) -> Result<Table, Halted<'a>>
    requires blank { (blank.name ≡ C.name) × (blank.parts ≡ C.parts)
        × (C.parts ≡ workers) × (0 < workers) }
    requires names { (program.now ≡ C.program) × (plan.now ≡ C.plan) }
    requires fits { IsTrue (fits program.now plan.now) }
    requires seats { seats.items ≡ new_seats desk.table desk.jobs workers }
    requires jobs { desk.jobs ≡ plan.now.jobs }
    ensures limits { IfErr result IsMemory }
    ensures table { IfOk result (λ table. IsTable program.now plan.now table.results.items) }
    ensures book { IfErr result (KeepsBook program.now plan.now) }
{
    let book = Book::new(alloc, program, plan);
    let Ok((book, mut shares)) = SharedBook::<C>::new(alloc, blank, book, workers) else {
        return Err(Halted::Memory);
    };
    let Ok(places) = Vec::with_capacity(alloc, workers as usize) else {
        return Err(Halted::Memory);
    };
    let mut team = hire(&desk, places, seats, &mut shares);
    let work = Work {
        alloc,
        program,
        plan,
        desk: &desk,
        book: &book,
    };
    thread::for_each_mut(
        rt,
        team.as_mut_slice(),
        workers as usize,
        &|_, worker: &mut Worker<C>|
            requires { IsSeatOf work.desk.now worker.old.seat }
        { work.work(rt, gate, worker) },
    );
    gate.ended();
    let failed = dismiss(team, &mut shares);
    let mut book = book.close(shares);
    if let Some(cause) = failed {
        return Err(Halted::WorkerFailed { book, cause });
    }
    match table_of(alloc, &mut book, program, plan) {
        Ok(table) => Ok(table),
        Err(_) => Err(Halted::WorkerFailed {
            book,
            cause: StoreFault::Memory,
        }),
    }
}

/// Runs the jobs of a plan on this number of workers, and returns the table. It waits for the workers. The table is the
/// plan's, for every number of workers, every gate and every order of the workers' steps.
///
/// # Errors
///
/// G01 for more than 1,000,000 jobs, else G02 for no worker or more than 64. Else G04 or G05 if memory ran out.
pub fn run_campaign<'a, G: Gate + Sync, R: Threads + Wait + Sync>(
    rt: &R,
    alloc: Global,
    program: &'a Program,
    plan: &'a Plan,
    workers: u64,
    gate: &G,
) -> Result<Table, Halted<'a>>
    requires fits { IsTrue (fits program.now plan.now) }
    ensures limits { KeepsLimits plan.now.jobs workers result }
    ensures table { IfOk result (λ table. IsTable program.now plan.now table.results.items) }
    // The book that is left is of this program and this plan. Its type ensures the rest.
    ensures book { IfErr result (KeepsBook program.now plan.now) }
    // A worker's failure is a refused growth.
    ensures cause { IfErr result IsRefusedGrowth }
{
    match Desk::open(alloc, plan.jobs, workers) {
        Ok((desk, seats)) => {
            let blank = Blank::new(workers);
            run_named::<Brand, G, R>(rt, alloc, blank, program, plan, gate, desk, seats, workers)
        }
        Err(DeskFault::TooManyJobs) => Err(Halted::TooManyJobs),
        Err(DeskFault::TooManyWorkers) => Err(Halted::TooManyWorkers),
        Err(DeskFault::Memory) => Err(Halted::Memory),
    }
}
