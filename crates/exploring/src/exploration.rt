//! An exploration on its way, level by level.

ghost use Rattle.std.specs.Prelude.{◌≡◌, ◌+◌, ◌<◌, ◌≤◌, [], ◌∷◌, drop, length, take, true, IsTrue, Ok, Some, IfOk, OnOk, OnErr, slice_get};
ghost use Rattle.std.specs.List.{AllZip};
ghost use Rattle.explore_jobs.specs.Fates.{IsFateOf};
ghost use Rattle.explore_jobs.specs.Plans.{fits, job_shown};
ghost use Rattle.exploring.specs.Batches.{AddsChildrenOf, job_at};
ghost use Rattle.exploring.specs.Counts.{level_of};
ghost use Rattle.exploration_parts.specs.Parts.{those_of};
ghost use Rattle.exploring.specs.Explorations.{AreFatesOf, Covers, Explored, IsFurther, IsNextLevel, IsOnWay, children_at, children_of_all, first_failing, first_jobs, has_first_job, is_good, is_whole, jobs_at, level_in};
ghost use Rattle.exploring.specs.Growths.{AreChildrenIn, AreNextIn, IsGrowthOf};
ghost use Rattle.jvms_machine.specs.Opening.{start_of_entry};
ghost use Rattle.jvms_machine.specs.Start.{Start};
ghost use Rattle.program_runs.specs.Shown.{HasEnding};

use crate::batch::{Batch, all_of};
use crate::growth::Growth;
use crate::jobs::Jobs;
use crate::level::Level;
use departures::Departure;
use exploration_parts::Part;
use explore_jobs::{Ending, Fate, Plan, job_ending};
use explore_laws::laws::{
    departures_make_the_choices_of_a_schedule, jobs_speak_for_all_runs, jobs_speak_for_reduced_runs,
};
use program::Program;
use std::alloc::{AllocError, Global};
use std::marker::Model;
use std::sync::Wait;
use std::thread::Threads;

/// The number of jobs that each worker runs before the results are put together.
const JOBS_AT_ONCE: usize = 1_024;

/// An exploration on its way: the jobs of a level, and how the first of them ended. Its type ensures that the jobs are the
/// first of their level, and that the fates are theirs.
#[derive(Drop)]
pub struct Exploration<'a> {
    alloc: Global,
    program: &'a Program,
    plan: &'a Plan,
    /// The first jobs of the level, or all.
    jobs: Jobs,
    /// The number of the level's jobs.
    count: u64,
    /// How the first jobs ended.
    fates: Vec<Fate>,
    /// `true` if all levels below are whole and have no run that fails.
    is_good_below: bool,
}

impl<'a> Model for Exploration<'a> {
    ghost use Rattle.exploring.specs.Explorations.{Explored, IsOnWay};

    ghost Value = { Explored };

    ghost view = { λ e. record {
      program = e.program.now;
      plan = e.plan.now;
      jobs = e.jobs;
      count = e.count;
      fates = e.fates.items;
      is_good_below = e.is_good_below;
    } };

    ghost invariant = { λ e. IsOnWay (record {
      program = e.program.now;
      plan = e.plan.now;
      jobs = e.jobs;
      count = e.count;
      fates = e.fates.items;
      is_good_below = e.is_good_below;
    }) };
}

/// Returns whether the job without a departure is run.
fn has_first_job(part: Option<Part>) -> bool
    ensures { result ≡ has_first_job part }
{
    match part {
        None => true,
        Some(part) => part.has_first(),
    }
}

/// Returns level 0 of a part, or of all.
fn first_jobs(alloc: Global, part: Option<Part>) -> Jobs
    ensures { result ≡ record { each = 0; jobs = first_jobs part } }
{
    if has_first_job(part) {
        Jobs::first(alloc)
    } else {
        Jobs::without_jobs(alloc, 0)
    }
}

impl<'a> Exploration<'a> {
    /// Begins an exploration, at level 0.
    pub fn new(alloc: Global, program: &'a Program, plan: &'a Plan) -> Exploration<'a>
        requires fits { IsTrue (fits program.now plan.now) }
        ensures { result ≡ record {
          program = program.now;
          plan = plan.now;
          jobs = record { each = 0; jobs = first_jobs plan.now.part };
          count = length (first_jobs plan.now.part);
          fates = [];
          is_good_below = true;
        } }
    {
        let jobs = first_jobs(alloc, plan.part);
        let count = jobs.len() as u64;
        Exploration {
            alloc,
            program,
            plan,
            jobs,
            count,
            fates: Vec::new(alloc),
            is_good_below: true,
        }
    }

    /// Proves to a caller that the jobs are the first of their level, and that the fates are theirs. Does nothing.
    pub fn is_on_way(&self)
        ensures { IsOnWay self.now }
    {
        let _ = &self.jobs;
    }

    /// Returns the number of departures of each job of this level.
    pub fn departures(&self) -> u64
        ensures { result ≡ level_in self.now }
    {
        self.jobs.each() as u64
    }

    /// Returns the number of jobs of this level that are kept.
    pub fn kept(&self) -> usize
        ensures { result ≡ length self.now.jobs.jobs }
    {
        self.jobs.len()
    }

    /// Returns the number of jobs of this level that were run.
    pub fn ran(&self) -> usize
        ensures { result ≡ length self.now.fates }
    {
        self.fates.len()
    }

    /// Returns the number of jobs of this level. It may exceed the number of those that are kept.
    pub fn count(&self) -> u64
        ensures { result ≡ self.now.count }
    {
        self.count
    }

    /// Returns whether all runs of this level were made.
    pub fn is_whole(&self) -> bool
        ensures exact { result ≡ is_whole self.now }
        // The fates are then those of all jobs of the level.
        ensures fates { IsTrue result → (start : Start)
            → start_of_entry self.now.program self.now.plan.limits self.now.plan.entry ≡ Ok start
            → AreFatesOf self.now.program self.now.plan (jobs_at self.now.program self.now.plan start (level_in self.now)) self.now.fates }
    {
        self.fates.len() as u64 == self.count
    }

    /// Returns what is counted of the runs of this level that were made.
    pub fn level(&self) -> Level
        ensures { result ≡ level_of (level_in self.now) self.now.fates }
    {
        Level::of(self.jobs.each() as u64, self.fates.as_slice())
    }

    /// Returns the place of the first run of this level that fails, if one of those that were made does.
    pub fn first_failing(&self) -> Option<usize>
        ensures { result ≡ first_failing self.now.fates }
    {
        self.fates.as_slice().iter().position(|fate| fate.fails())
    }

    /// Returns the departures of a job of this level that was run.
    pub fn job(&self, index: usize) -> &[Departure]
        requires { index < length self.now.fates }
        ensures job { slice_get self.now.jobs.jobs index ≡ Some result.now }
        ensures long { length result.now ≡ level_in self.now }
    {
        self.jobs.get(index)
    }

    /// Returns how the run of a job of this level ended.
    pub fn fate(&self, index: usize) -> Fate
        requires { index < length self.now.fates }
        ensures place { slice_get self.now.fates index ≡ Some result }
        ensures job { IsFateOf self.now.program self.now.plan (job_at self.now.jobs index) result }
    {
        self.fates[index]
    }

    /// Runs a job of this level that was run again, and returns its ending.
    pub fn ending(&self, index: usize) -> Result<Ending, AllocError>
        requires { index < length self.now.fates }
        ensures { IfOk result (HasEnding (job_shown self.now.program self.now.plan (job_at self.now.jobs index))) }
    {
        let departures = self.jobs.get(index);
        job_ending(self.alloc, self.program, self.plan, departures)
    }

    /// Returns whether all levels below this one are whole and have no run that fails. Then no run with fewer departures than
    /// those of this level fails, of those that the plan covers.
    pub fn covers_below(&self) -> bool
        ensures exact { result ≡ self.now.is_good_below }
        ensures covers { IsTrue result → (start : Start)
            → start_of_entry self.now.program self.now.plan.limits self.now.plan.entry ≡ Ok start
            → Covers self.now.program self.now.plan start (level_in self.now) }
    {
        self.program.program_invariant();
        jobs_speak_for_all_runs();
        jobs_speak_for_reduced_runs();
        self.is_good_below
    }

    /// Returns whether all levels so far are whole, this one among them, and have no run that fails.
    fn is_good(&self) -> bool
        ensures { result ≡ is_good self.now }
    {
        self.is_good_below && self.is_whole() && self.first_failing().is_none()
    }

    /// Returns whether all levels so far are whole, this one among them, and have no run that fails. Then no run with at most
    /// this number of departures fails, of those that the plan covers.
    pub fn covers(&self) -> bool
        ensures exact { result ≡ is_good self.now }
        ensures covers { IsTrue result → (start : Start)
            → start_of_entry self.now.program self.now.plan.limits self.now.plan.entry ≡ Ok start
            → Covers self.now.program self.now.plan start (level_in self.now + 1) }
    {
        self.program.program_invariant();
        departures_make_the_choices_of_a_schedule();
        jobs_speak_for_all_runs();
        jobs_speak_for_reduced_runs();
        self.is_good()
    }

    /// Returns the number of jobs that are run at once, from an index on.
    fn at_once(&self, from: usize, workers: usize) -> usize
        requires from { from < length self.now.jobs.jobs }
        requires workers { 0 < workers }
        ensures some { 0 < result }
        ensures within { from + result ≤ length self.now.jobs.jobs }
    {
        let left = self.jobs.len() - from;
        left.min(workers.saturating_mul(JOBS_AT_ONCE))
    }

    /// Runs consecutive jobs on this number of workers.
    fn fates_from<R: Threads + Wait + Sync>(
        &self,
        rt: &R,
        workers: usize,
        from: usize,
        count: usize,
    ) -> Result<Vec<Fate>, AllocError>
        requires workers { 0 < workers }
        requires jobs { from + count ≤ length self.now.jobs.jobs }
        ensures fates { IfOk result (λ fates. AreFatesOf self.now.program self.now.plan
            (take count (drop from self.now.jobs.jobs)) fates.items) }
        ensures count { IfOk result (λ fates. length fates.items ≡ count) }
    {
        let batch = Batch {
            alloc: self.alloc,
            program: self.program,
            plan: self.plan,
            jobs: &self.jobs,
            from,
            count,
        };
        all_of(self.alloc, batch.fates(rt, workers)?)
    }

    /// Runs the next jobs of this level on this number of workers.
    ///
    /// # Errors
    ///
    /// Memory ran out.
    pub fn run_jobs<R: Threads + Wait + Sync>(
        &mut self,
        rt: &R,
        workers: usize,
    ) -> Result<(), AllocError>
        requires workers { 0 < workers }
        requires jobs { length self.old.fates < length self.old.jobs.jobs }
        ensures ok { OnOk result (IsFurther self.old self.new) }
        ensures err { OnErr result (self.new ≡ self.old) }
    {
        let from = self.fates.len();
        let count = self.at_once(from, workers);
        let fates = self.fates_from(rt, workers, from, count)?;
        self.fates.extend_from_slice(fates.as_slice())?;
        Ok(())
    }

    /// Finds the departures that the children of consecutive jobs add, on this number of workers.
    fn added_from<R: Threads + Wait + Sync>(
        &self,
        rt: &R,
        workers: usize,
        from: usize,
        count: usize,
    ) -> Result<Vec<Vec<Departure>>, AllocError>
        requires workers { 0 < workers }
        requires jobs { from + count ≤ length self.now.jobs.jobs }
        ensures added { IfOk result (λ added. AllZip (AddsChildrenOf self.now.program self.now.plan)
            (take count (drop from self.now.jobs.jobs)) added.items) }
        ensures count { IfOk result (λ added. length added.items ≡ count) }
    {
        let batch = Batch {
            alloc: self.alloc,
            program: self.program,
            plan: self.plan,
            jobs: &self.jobs,
            from,
            count,
        };
        all_of(self.alloc, batch.children(rt, workers)?)
    }

    /// Appends the children of consecutive jobs, which add these departures.
    fn push_children(
        &self,
        growth: &mut Growth,
        from: usize,
        added: &[Vec<Departure>],
        room: usize,
    ) -> Result<(), AllocError>
        requires each { growth.old.jobs.each ≡ level_in self.now + 1 }
        requires jobs { from + length added.now ≤ length self.now.jobs.jobs }
        ensures each { growth.new.jobs.each ≡ growth.old.jobs.each }
        ensures grows { (start : Start)
            → start_of_entry self.now.program self.now.plan.limits self.now.plan.entry ≡ Ok start
            → AllZip (AddsChildrenOf self.now.program self.now.plan)
            (take (length added.now) (drop from self.now.jobs.jobs)) added.now
            → IsGrowthOf room (children_of_all self.now.program self.now.plan start
            (take from self.now.jobs.jobs)) growth.old
            → OnOk result (IsGrowthOf room (children_of_all self.now.program self.now.plan start
            (take (from + length added.now) self.now.jobs.jobs)) growth.new) }
    {
        // Each index is below the number of jobs, so it fits.
        let _count = self.jobs.len();
        for (place, departures) in added.iter().enumerate() {
            growth.add(self.jobs.get(from + place), departures.as_slice(), room)?;
        }
        Ok(())
    }

    /// Returns the children of the jobs of this level, of which at most `room` are kept.
    fn children<R: Threads + Wait + Sync>(
        &self,
        rt: &R,
        workers: usize,
        room: usize,
    ) -> Result<Growth, AllocError>
        requires workers { 0 < workers }
        requires level { level_in self.now < 16 }
        ensures each { IfOk result (λ growth. growth.jobs.each ≡ level_in self.now + 1) }
        ensures children { IfOk result (AreChildrenIn self.now room) }
    {
        let mut growth = Growth::new(self.alloc, self.jobs.each() + 1);
        let mut from = 0;
        while from < self.jobs.len() {
            let count = self.at_once(from, workers);
            let added = self.added_from(rt, workers, from, count)?;
            self.push_children(&mut growth, from, added.as_slice(), room)?;
            from += count;
        }
        Ok(growth)
    }

    /// Returns the departures that the children of the job without a departure add.
    fn first_departures(&self) -> Result<Vec<Departure>, AllocError>
        ensures { IfOk result (AddsChildrenOf self.now.program self.now.plan []) }
    {
        let first = Jobs::first(self.alloc);
        let batch = Batch {
            alloc: self.alloc,
            program: self.program,
            plan: self.plan,
            jobs: &first,
            from: 0,
            count: 1,
        };
        batch.added(0)
    }

    /// Returns the jobs with one departure that belong to a part, of which at most `room` are kept.
    fn jobs_of_part(&self, part: Part, room: usize) -> Result<Growth, AllocError>
        ensures each { IfOk result (λ growth. growth.jobs.each ≡ 1) }
        ensures jobs { IfOk result (λ growth. (start : Start)
            → start_of_entry self.now.program self.now.plan.limits self.now.plan.entry ≡ Ok start
            → IsGrowthOf room (those_of part 0 (children_at self.now.program self.now.plan start [])) growth) }
    {
        let departures = self.first_departures()?;
        let own = part.own_of(self.alloc, departures.as_slice())?;
        let mut growth = Growth::new(self.alloc, 1);
        growth.add(&[], own.as_slice(), room)?;
        Ok(growth)
    }

    /// Returns the jobs of the next level, of which at most `room` are kept.
    fn next_level<R: Threads + Wait + Sync>(
        &self,
        rt: &R,
        workers: usize,
        room: usize,
    ) -> Result<Growth, AllocError>
        requires workers { 0 < workers }
        requires level { level_in self.now < 16 }
        ensures each { IfOk result (λ growth. growth.jobs.each ≡ level_in self.now + 1) }
        ensures next { IfOk result (AreNextIn self.now room) }
    {
        let Some(part) = self.plan.part else {
            return self.children(rt, workers, room);
        };
        if self.jobs.each() > 0 {
            return self.children(rt, workers, room);
        }
        self.jobs_of_part(part, room)
    }

    /// Goes on to the next level, of whose jobs at most `room` are kept.
    ///
    /// # Errors
    ///
    /// Memory ran out, or the level has more than 18,446,744,073,709,551,615 jobs. The exploration is unchanged.
    pub fn grow<R: Threads + Wait + Sync>(
        &mut self,
        rt: &R,
        workers: usize,
        room: usize,
    ) -> Result<(), AllocError>
        requires workers { 0 < workers }
        requires whole { IsTrue (is_whole self.old) }
        requires level { level_in self.old < 16 }
        ensures ok { OnOk result (IsNextLevel room self.old self.new) }
        ensures err { OnErr result (self.new ≡ self.old) }
    {
        self.program.program_invariant();
        departures_make_the_choices_of_a_schedule();
        let is_good = self.covers();
        let growth = self.next_level(rt, workers, room)?;
        self.jobs = growth.jobs;
        self.count = growth.count;
        self.fates = Vec::new(self.alloc);
        self.is_good_below = is_good;
        Ok(())
    }
}
