//! Departures that are left, and the passes over them.

ghost use Rattle.std.specs.Prelude.{◌≡◌, ◌+◌, ◌<◌, ◌^◌, false, length, IsTrue, List, OnOk, IfOk};
ghost use Rattle.departures.specs.declared.departure.Departure.{Departure};
ghost use Rattle.explore_jobs.specs.Plans.{fits};
ghost use Rattle.explore_jobs.specs.declared.plan.Plan.{Plan};
ghost use Rattle.jvms_program.specs.declared.program.Class.{Class};
ghost use Rattle.shrinking.specs.Searches.{IsOnWay, is_last};
ghost use Rattle.shrinking.specs.declared.failure.Failure.{Failure};

use crate::failure::Failure;
use crate::parts::without;
use departures::Departure;
use explore_jobs::{Fate, Plan, run_job};
use program::Program;
use std::alloc::{AllocError, Global};

/// What is left of the departures of a job.
#[derive(Drop)]
pub struct Shrunk {
    /// The departures that are left.
    pub departures: Vec<Departure>,
    /// How the run of these departures ended.
    pub fate: Fate,
    /// The number of runs that were made, with that of all departures.
    pub runs: u64,
    /// `true` if no single departure can be left out. Several at once may be.
    pub is_least: bool,
}

/// A pass over the departures, which tries to leave out one chunk after another.
#[derive(Clone, Copy)]
pub(crate) struct Pass {
    /// The index of the first departure of the next chunk.
    pub from: usize,
    /// The number of departures of a chunk. The last chunk may have fewer.
    pub size: usize,
    /// `true` if a chunk was left out.
    pub has_left_out: bool,
}

impl Shrunk {
    /// Returns whether a pass that is at its end was the last: no single departure can be left out.
    fn is_last(&self, pass: Pass) -> bool
        ensures { result ≡ is_last pass self.now.departures.items }
    {
        self.departures.is_empty() || pass.size <= 1 && !pass.has_left_out
    }

    /// Returns the pass that has the next chunk: this one, or if it is at its end, one with chunks of half the size. Marks the
    /// departures as least after the last pass.
    fn advance(&mut self, pass: Pass) -> Pass
        requires { self.old.is_least ≡ false }
        ensures way { (program : List Class) (plan : Plan) (way : Failure) (given : List Departure)
            → IsOnWay program plan way given pass self.old
            → IsOnWay program plan way given result self.new }
        ensures from { self.new.is_least ≡ false
            → result.from < length self.new.departures.items }
        ensures runs { self.new.runs ≡ self.old.runs }
    {
        if pass.from < self.departures.len() {
            return pass;
        }
        self.is_least = self.is_last(pass);
        Pass {
            from: 0,
            size: (pass.size / 2).max(1),
            has_left_out: false,
        }
    }

    /// Leaves out the next chunk of a pass if the run still fails in this way, and returns the pass that has the chunk after it.
    ///
    /// # Errors
    ///
    /// Memory ran out.
    pub(crate) fn leave_out(
        &mut self,
        alloc: Global,
        program: &Program,
        plan: &Plan,
        failure: Failure,
        pass: Pass,
    ) -> Result<Pass, AllocError>
        requires fits { IsTrue (fits program.now plan.now) }
        requires more { self.old.is_least ≡ false }
        requires from { pass.from < length self.old.departures.items }
        requires runs { self.old.runs + 1 < 2 ^ 64 }
        ensures way { (given : List Departure)
            → IsOnWay program.now plan.now failure given pass self.old
            → IfOk result (λ next. IsOnWay program.now plan.now failure given next self.new) }
        ensures from { IfOk result (λ next. self.new.is_least ≡ false
            → next.from < length self.new.departures.items) }
        ensures runs { OnOk result (self.new.runs ≡ self.old.runs + 1) }
    {
        let count = pass.size.min(self.departures.len() - pass.from);
        let rest = without(alloc, self.departures.as_slice(), pass.from, count)?;
        let fate = run_job(alloc, program, plan, rest.as_slice())?;
        self.runs += 1;
        if !failure.is_of_job(fate, plan.most) {
            return Ok(self.advance(Pass {
                from: pass.from + count,
                ..pass
            }));
        }
        self.fate = fate;
        self.departures = rest;
        Ok(self.advance(Pass {
            has_left_out: true,
            ..pass
        }))
    }
}
