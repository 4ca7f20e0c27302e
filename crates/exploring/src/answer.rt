//! Explorations up to a bound, and what they find.

ghost use Rattle.std.specs.Prelude.{◌≡◌, ◌+◌, ◌<◌, ◌≤◌, ◌⊎◌, ◌==◌, ◌&&◌, ◌||◌, IfOk, IfSome, IsTrue, Ok, OnOk, false, is_none, is_some, length, true};
ghost use Rattle.explore_jobs.specs.Plans.{fits};
ghost use Rattle.exploring.specs.Answers.{IsAnswerTo};
ghost use Rattle.exploring.specs.Explorations.{Covers, Explored, first_failing, is_good, is_whole, level_in};
ghost use Rattle.exploring.specs.Searches.{AreAlike, IsAfter, IsBefore, IsFirstFailing, IsRunAt, IsThoroughAfter, IsThoroughBefore, is_shown_after};
ghost use Rattle.exploring.specs.Thorough.{is_followed};
ghost use Rattle.exploring.specs.declared.answer.Bounds.{Bounds};
ghost use Rattle.jvms_machine.specs.Opening.{start_of_entry};
ghost use Rattle.jvms_machine.specs.Start.{Start};

use crate::exploration::Exploration;
use crate::level::Level;
use departures::Departure;
use explore_jobs::{Ending, Fate, Plan, job_ending};
use program::Program;
use std::alloc::{AllocError, Global};
use std::sync::Wait;
use std::thread::Threads;

/// How far an exploration goes.
#[derive(Clone, Copy, Debug, PartialEq, Eq)]
pub struct Bounds {
    /// The greatest number of departures, at most 16.
    pub departures: u64,
    /// The greatest number of runs.
    pub runs: u64,
    /// `true` if levels go on after one with a run that fails.
    pub all: bool,
}

/// The runs of a level that were made.
#[derive(Clone, Copy, Debug, PartialEq, Eq)]
pub struct LevelRuns {
    /// What is counted of them.
    pub level: Level,
    /// The number of the level's jobs.
    pub jobs: u64,
}

/// A run that fails.
#[derive(Debug, Drop)]
pub struct FailingRun {
    /// Where its schedule departs from the default.
    pub departures: Vec<Departure>,
    /// How it ended.
    pub fate: Fate,
    /// Its ending, with the threads that ended by an exception.
    pub ending: Ending,
}

/// What an exploration found.
#[derive(Debug, Drop)]
pub struct Answer {
    /// The levels, from level 0 on.
    pub levels: Vec<LevelRuns>,
    /// The first run that fails, of the lowest level that has one.
    pub failing: Option<FailingRun>,
    /// `true` if all levels up to the bound are whole and have no run that fails.
    pub is_covered: bool,
}

/// Observes an exploration. The thread that waits for the workers calls it.
pub trait Observer {
    /// Tells that a level with this number of jobs begins.
    fn begins(&self, departures: u64, jobs: u64);

    /// Tells how many of the level's jobs were run.
    fn ran(&self, runs: u64);

    /// Tells that all levels have been run.
    fn ended(&self);
}

/// Who runs the jobs of an exploration.
#[derive(Drop)]
pub struct Team<'t, R, O> {
    /// The runtime that has the threads.
    pub rt: &'t R,
    /// The number of threads that run jobs at the same time.
    pub workers: usize,
    /// The observer of the exploration.
    pub observer: &'t O,
}

/// An exploration with what it found so far.
#[derive(Drop)]
struct Search<'a> {
    alloc: Global,
    exploration: Exploration<'a>,
    levels: Vec<LevelRuns>,
    failing: Option<FailingRun>,
    /// The number of runs that may still be made.
    left: usize,
}

impl<'a> Search<'a> {
    /// Begins an exploration of at most this number of runs.
    fn new(alloc: Global, program: &'a Program, plan: &'a Plan, runs: usize) -> Search<'a>
        requires fits { IsTrue (fits program.now plan.now) }
        ensures before { IsBefore result }
        ensures program { result.exploration.program ≡ program.now }
        ensures plan { result.exploration.plan ≡ plan.now }
        ensures level { level_in result.exploration ≡ 0 }
        ensures thorough { (bounds : Bounds) → bounds.runs ≡ runs → IsThoroughBefore bounds result }
    {
        Search {
            alloc,
            exploration: Exploration::new(alloc, program, plan),
            levels: Vec::new(alloc),
            failing: None,
            left: runs,
        }
    }

    /// Returns the run of the level's job at a place.
    fn run_at(&self, place: usize) -> Result<FailingRun, AllocError>
        requires { place < length self.now.exploration.fates }
        ensures { IfOk result (IsRunAt self.now.exploration place) }
    {
        let departures = self.exploration.job(place);
        Ok(FailingRun {
            departures: Vec::from_slice(self.alloc, departures)?,
            fate: self.exploration.fate(place),
            ending: self.exploration.ending(place)?,
        })
    }

    /// Runs the jobs of the level that are kept.
    fn run_jobs<R: Threads + Wait + Sync, O: Observer>(
        &mut self,
        team: &Team<'_, R, O>,
    ) -> Result<(), AllocError>
        requires { 0 < team.now.workers }
        ensures same { OnOk result (self.new ≡ record self.old { exploration = record self.old.exploration { fates = self.new.exploration.fates } }) }
        ensures all { 0 < self.old.left → OnOk result
            (length self.new.exploration.jobs.jobs ≤ length self.new.exploration.fates) }
        ensures none { self.old.left ≡ 0 → OnOk result
            (self.new.exploration.fates ≡ self.old.exploration.fates) }
    {
        let exploration = &mut self.exploration;
        team.observer
            .begins(exploration.departures(), exploration.count());
        // Level 0 has a job even if no run may be made.
        if self.left == 0 {
            return Ok(());
        }
        while exploration.ran() < exploration.kept() {
            exploration.run_jobs(team.rt, team.workers)?;
            team.observer.ran(exploration.ran() as u64);
        }
        Ok(())
    }

    /// Finds the first run of the level that fails, unless one of a level below does.
    fn find_failing(&mut self) -> Result<(), AllocError>
        ensures exploration { self.new.exploration ≡ self.old.exploration }
        ensures levels { self.new.levels ≡ self.old.levels }
        ensures left { self.new.left ≡ self.old.left }
        ensures failing { (self.new.failing ≡ self.old.failing) ⊎ IfSome self.new.failing (IsFirstFailing self.old.exploration) }
        ensures shown { OnOk result (is_some self.new.failing ≡ is_shown_after (is_some self.old.failing)
            self.old.exploration.is_good_below (is_some (first_failing self.old.exploration.fates))) }
    {
        if self.exploration.covers_below()
            && let Some(place) = self.exploration.first_failing()
        {
            self.failing = Some(self.run_at(place)?);
        }
        Ok(())
    }

    /// Runs the jobs of the level that are kept, counts them, and finds the first that fails.
    fn run_level<R: Threads + Wait + Sync, O: Observer>(
        &mut self,
        team: &Team<'_, R, O>,
    ) -> Result<(), AllocError>
        requires { 0 < team.now.workers }
        ensures after { IsBefore self.old → OnOk result (IsAfter self.new) }
        ensures alike { OnOk result (AreAlike self.old self.new) }
        ensures level { OnOk result (level_in self.new.exploration ≡ level_in self.old.exploration) }
        ensures thorough { (bounds : Bounds) → IsThoroughBefore bounds self.old
            → OnOk result (IsThoroughAfter bounds self.new) }
    {
        self.run_jobs(team)?;
        self.exploration.is_on_way();
        self.left = self.left.saturating_sub(self.exploration.ran());
        self.levels.push(LevelRuns {
            level: self.exploration.level(),
            jobs: self.exploration.count(),
        })?;
        self.find_failing()?;
        Ok(())
    }

    /// Goes on to the next level.
    fn grow<R: Threads + Wait + Sync, O: Observer>(
        &mut self,
        team: &Team<'_, R, O>,
    ) -> Result<(), AllocError>
        requires workers { 0 < team.now.workers }
        requires whole { IsTrue (is_whole self.old.exploration) }
        requires level { level_in self.old.exploration < 16 }
        ensures before { IsAfter self.old → OnOk result (IsBefore self.new) }
        ensures alike { OnOk result (AreAlike self.old self.new) }
        ensures level { OnOk result (level_in self.new.exploration ≡ level_in self.old.exploration + 1) }
        ensures thorough { (bounds : Bounds) → IsThoroughAfter bounds self.old
            → is_followed bounds self.old.levels.items ≡ true → OnOk result (IsThoroughBefore bounds self.new) }
    {
        let left = self.left;
        self.exploration.grow(team.rt, team.workers, left)?;
        self.exploration.is_on_way();
        Ok(())
    }

    /// Returns whether the next level is to be run.
    fn goes_on(&self, all: bool) -> bool
        ensures whole { IsTrue result → IsTrue (is_whole self.now.exploration) }
        ensures exact { result ≡ (is_whole self.now.exploration && (all || is_none self.now.failing)) }
    {
        self.exploration.is_whole() && (all || self.failing.is_none())
    }

    /// Goes on to the next level, runs its jobs that are kept, counts them, and finds the first that fails.
    fn run_next<R: Threads + Wait + Sync, O: Observer>(
        &mut self,
        team: &Team<'_, R, O>,
    ) -> Result<(), AllocError>
        requires workers { 0 < team.now.workers }
        requires whole { IsTrue (is_whole self.old.exploration) }
        requires level { level_in self.old.exploration < 16 }
        ensures after { IsAfter self.old → OnOk result (IsAfter self.new) }
        ensures alike { OnOk result (AreAlike self.old self.new) }
        ensures level { OnOk result (level_in self.new.exploration ≡ level_in self.old.exploration + 1) }
        ensures thorough { (bounds : Bounds) → IsThoroughAfter bounds self.old
            → is_followed bounds self.old.levels.items ≡ true → OnOk result (IsThoroughAfter bounds self.new) }
    {
        self.grow(team)?;
        self.run_level(team)
    }

    /// Runs the levels up to the bounds.
    fn run_levels<R: Threads + Wait + Sync, O: Observer>(
        &mut self,
        team: &Team<'_, R, O>,
        bounds: Bounds,
    ) -> Result<(), AllocError>
        requires workers { 0 < team.now.workers }
        requires bounds { bounds.departures ≤ 16 }
        requires before { IsBefore self.old }
        requires level { level_in self.old.exploration ≡ 0 }
        requires thorough { IsThoroughBefore bounds self.old }
        ensures after { OnOk result (IsAfter self.new) }
        ensures alike { OnOk result (AreAlike self.old self.new) }
        ensures thorough { OnOk result (IsThoroughAfter bounds self.new) }
        ensures last { OnOk result (is_followed bounds self.new.levels.items ≡ false) }
    {
        self.run_level(team)?;
        for _ in 0..bounds.departures {
            if !self.goes_on(bounds.all) {
                return Ok(());
            }
            self.run_next(team)?;
        }
        Ok(())
    }

    /// Returns whether all levels up to this number of departures are whole and have no run that fails.
    fn covers(&self, most: u64) -> bool
        ensures exact { result ≡ (level_in self.now.exploration == most && is_good self.now.exploration) }
        ensures covers { IsTrue result → (start : Start)
            → start_of_entry self.now.exploration.program self.now.exploration.plan.limits self.now.exploration.plan.entry ≡ Ok start
            → Covers self.now.exploration.program self.now.exploration.plan start (most + 1) }
    {
        if self.exploration.departures() != most {
            return false;
        }
        self.exploration.covers()
    }

    /// Returns what was found up to this number of departures.
    fn answer(self, most: u64) -> Answer
        ensures levels { result.levels ≡ self.entry.levels }
        ensures failing { result.failing ≡ self.entry.failing }
        ensures exact { result.is_covered ≡ (level_in self.entry.exploration == most && is_good self.entry.exploration) }
        ensures covered { IsTrue result.is_covered → (start : Start)
            → start_of_entry self.entry.exploration.program self.entry.exploration.plan.limits self.entry.exploration.plan.entry ≡ Ok start
            → Covers self.entry.exploration.program self.entry.exploration.plan start (most + 1) }
    {
        let is_covered = self.covers(most);
        Answer {
            levels: self.levels,
            failing: self.failing,
            is_covered,
        }
    }
}

/// Explores a program: runs all jobs level by level, up to the bounds.
///
/// # Errors
///
/// Memory ran out, or a level has more than 18,446,744,073,709,551,615 jobs.
pub fn explore<R: Threads + Wait + Sync, O: Observer>(
    team: &Team<'_, R, O>,
    alloc: Global,
    program: &Program,
    plan: &Plan,
    bounds: Bounds,
) -> Result<Answer, AllocError>
    requires fits { IsTrue (fits program.now plan.now) }
    requires workers { 0 < team.now.workers }
    requires bounds { bounds.departures ≤ 16 }
    ensures { IfOk result (IsAnswerTo program.now plan.now bounds) }
{
    let mut search = Search::new(alloc, program, plan, bounds.runs as usize);
    search.run_levels(team, bounds)?;
    team.observer.ended();
    Ok(search.answer(bounds.departures))
}
