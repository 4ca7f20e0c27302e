//! Consecutive jobs of a level, which several threads run at the same time.

ghost use Rattle.std.specs.Prelude.{◌≡◌, ◌+◌, ◌<◌, ◌≤◌, IfOk, IfSome, IsTrue, Some, drop, length, map, take};
ghost use Rattle.explore_jobs.specs.Fates.{IsFateOf};
ghost use Rattle.explore_jobs.specs.Plans.{fits};
ghost use Rattle.exploring.specs.Batches.{AddsChildrenOf, AreFound, job_at};

use crate::jobs::Jobs;
use departures::Departure;
use explore_jobs::{Fate, Plan, added_departures, run_job};
use program::Program;
use program_runs::machine::Machine;
use std::alloc::{AllocError, Global};
use std::sync::Wait;
use std::thread;
use std::thread::Threads;

/// Consecutive jobs of a level, from an index on.
#[derive(Clone, Copy)]
pub(crate) struct Batch<'a> {
    pub alloc: Global,
    pub program: &'a Program,
    pub plan: &'a Plan,
    pub jobs: &'a Jobs,
    pub from: usize,
    pub count: usize,
}

/// Returns what was found, unless memory ran out for some of it.
pub(crate) fn all_of<T: Drop>(alloc: Global, found: Vec<Option<T>>) -> Result<Vec<T>, AllocError>
    ensures { IfOk result (λ all. found.items ≡ map Some all.items) }
{
    let mut all = Vec::with_capacity(alloc, found.len())?;
    for one in found {
        all.push(one.ok_or(AllocError)?)?;
    }
    Ok(all)
}

impl Batch<'_> {
    /// Runs the job at a place of the batch.
    fn fate(&self, place: usize) -> Result<Fate, AllocError>
        requires fits { IsTrue (fits self.now.program.now self.now.plan.now) }
        requires place { self.now.from + place < length self.now.jobs.now.jobs }
        ensures { IfOk result (IsFateOf self.now.program.now self.now.plan.now
            (job_at self.now.jobs.now (self.now.from + place))) }
    {
        // The index is below the number of jobs, so it fits.
        let _count = self.jobs.len();
        let departures = self.jobs.get(self.from + place);
        run_job(self.alloc, self.program, self.plan, departures)
    }

    /// Returns the departures that the children of the job at a place of the batch add.
    pub(crate) fn added(&self, place: usize) -> Result<Vec<Departure>, AllocError>
        requires place { self.now.from + place < length self.now.jobs.now.jobs }
        ensures { IfOk result (AddsChildrenOf self.now.program.now self.now.plan.now
            (job_at self.now.jobs.now (self.now.from + place))) }
    {
        // The index is below the number of jobs, so it fits.
        let _count = self.jobs.len();
        let departures = self.jobs.get(self.from + place);
        let plan = self.plan;
        let machine = Machine::new(self.alloc, self.program, plan.limits, &plan.entry);
        let Ok(mut machine) = machine else {
            return Err(AllocError);
        };
        let most = plan.most.turns();
        let added = added_departures(self.alloc, &mut machine, &plan.within, departures, most);
        drop(machine);
        added
    }

    /// Runs the jobs on this number of workers, and puts what was found for each to its place. For a job for which memory
    /// ran out there is nothing.
    fn put_fates<R: Threads + Wait + Sync>(
        &self,
        rt: &R,
        workers: usize,
        found: &mut [Option<Fate>],
    )
        requires workers { 0 < workers }
        requires fits { IsTrue (fits self.now.program.now self.now.plan.now) }
        requires jobs { self.now.from + self.now.count ≤ length self.now.jobs.now.jobs }
        requires places { length found.old ≡ self.now.count }
        ensures { AreFound (IsFateOf self.now.program.now self.now.plan.now)
            (take self.now.count (drop self.now.from self.now.jobs.now.jobs)) found.new }
    {
        thread::for_each_mut(
            rt,
            found,
            workers,
            &|place, slot: &mut Option<Fate>|
                requires fits { IsTrue (fits self.now.program.now self.now.plan.now) }
                requires place { self.now.from + place < length self.now.jobs.now.jobs }
                ensures { IfSome slot.new (IsFateOf self.entry.now.program.now self.entry.now.plan.now
                    (job_at self.entry.now.jobs.now (self.entry.now.from + place))) }
            {
                *slot = self.fate(place).ok();
            },
        );
    }

    /// Runs the jobs on this number of workers. For a job for which memory ran out there is nothing.
    pub(crate) fn fates<R: Threads + Wait + Sync>(
        &self,
        rt: &R,
        workers: usize,
    ) -> Result<Vec<Option<Fate>>, AllocError>
        requires workers { 0 < workers }
        requires fits { IsTrue (fits self.now.program.now self.now.plan.now) }
        requires jobs { self.now.from + self.now.count ≤ length self.now.jobs.now.jobs }
        ensures { IfOk result (λ found. AreFound (IsFateOf self.now.program.now self.now.plan.now)
            (take self.now.count (drop self.now.from self.now.jobs.now.jobs)) found.items) }
    {
        let mut found = Vec::with_capacity(self.alloc, self.count)?;
        found.resize_with(self.count, || None)?;
        self.put_fates(rt, workers, found.as_mut_slice());
        Ok(found)
    }

    /// Finds the departures that the children of each job add, on this number of workers, and puts them to their places. For
    /// a job for which memory ran out there is nothing.
    fn put_children<R: Threads + Wait + Sync>(
        &self,
        rt: &R,
        workers: usize,
        found: &mut [Option<Vec<Departure>>],
    )
        requires workers { 0 < workers }
        requires jobs { self.now.from + self.now.count ≤ length self.now.jobs.now.jobs }
        requires places { length found.old ≡ self.now.count }
        ensures { AreFound (AddsChildrenOf self.now.program.now self.now.plan.now)
            (take self.now.count (drop self.now.from self.now.jobs.now.jobs)) found.new }
    {
        thread::for_each_mut(
            rt,
            found,
            workers,
            &|place, slot: &mut Option<Vec<Departure>>|
                requires { self.now.from + place < length self.now.jobs.now.jobs }
                ensures { IfSome slot.new (AddsChildrenOf self.entry.now.program.now self.entry.now.plan.now
                    (job_at self.entry.now.jobs.now (self.entry.now.from + place))) }
            {
                *slot = self.added(place).ok();
            },
        );
    }

    /// Finds the departures that the children of each job add, on this number of workers. For a job for which memory ran out
    /// there is nothing.
    pub(crate) fn children<R: Threads + Wait + Sync>(
        &self,
        rt: &R,
        workers: usize,
    ) -> Result<Vec<Option<Vec<Departure>>>, AllocError>
        requires workers { 0 < workers }
        requires jobs { self.now.from + self.now.count ≤ length self.now.jobs.now.jobs }
        ensures { IfOk result (λ found. AreFound (AddsChildrenOf self.now.program.now self.now.plan.now)
            (take self.now.count (drop self.now.from self.now.jobs.now.jobs)) found.items) }
    {
        let mut found = Vec::with_capacity(self.alloc, self.count)?;
        found.resize_with(self.count, || None)?;
        self.put_children(rt, workers, found.as_mut_slice());
        Ok(found)
    }
}
