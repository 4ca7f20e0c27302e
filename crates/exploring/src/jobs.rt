//! The jobs of a level.

ghost use Rattle.std.specs.Prelude.{◌≡◌, ◌+◌, ◌<◌, ◌++◌, ◌∷◌, [], length, OnOk, OnErr, slice_get, Some};
ghost use Rattle.exploring.specs.Levels.{LevelJobs, jobs_in};

use departures::Departure;
use std::alloc::{AllocError, Global};
use std::marker::Model;

/// The jobs of a level: schedules with the same number of departures, in the order of these.
#[derive(Drop)]
pub struct Jobs {
    /// The number of departures of each job.
    each: usize,
    /// The number of jobs.
    count: usize,
    /// The departures of all jobs, one job after another.
    departures: Vec<Departure>,
}

impl Model for Jobs {
    ghost use Rattle.std.specs.Prelude.{◌≡◌, ◌*◌, length};
    ghost use Rattle.exploring.specs.Levels.{LevelJobs, jobs_in};

    ghost Value = { LevelJobs };

    ghost view = { λ j. record { each = j.each; jobs = jobs_in j.count j.each j.departures.items } };

    ghost invariant = { λ j. length j.departures.items ≡ j.count * j.each };
}

impl Jobs {
    /// Returns level 0, whose job has no departure.
    pub fn first(alloc: Global) -> Jobs
        ensures { result ≡ record { each = 0; jobs = [] ∷ [] } }
    {
        Jobs {
            each: 0,
            count: 1,
            departures: Vec::new(alloc),
        }
    }

    /// Returns a level without a job, whose jobs are to have this number of departures.
    pub fn without_jobs(alloc: Global, each: usize) -> Jobs
        ensures { result ≡ record { each = each; jobs = [] } }
    {
        Jobs {
            each,
            count: 0,
            departures: Vec::new(alloc),
        }
    }

    /// Returns the number of departures of each job.
    pub fn each(&self) -> usize
        ensures { result ≡ self.now.each }
    {
        self.each
    }

    /// Returns the number of jobs.
    pub fn len(&self) -> usize
        ensures { result ≡ length self.now.jobs }
    {
        self.count
    }

    /// Returns the departures of a job.
    pub fn get(&self, index: usize) -> &[Departure]
        requires { index < length self.now.jobs }
        ensures job { slice_get self.now.jobs index ≡ Some result.now }
        ensures long { length result.now ≡ self.now.each }
    {
        let begin = index * self.each;
        &self.departures[begin..begin + self.each]
    }

    /// Appends the child of a job that adds a departure.
    pub fn push_child(&mut self, parent: &[Departure], added: Departure) -> Result<(), AllocError>
        requires { length parent.now + 1 ≡ self.old.each }
        ensures ok { OnOk result (self.new ≡ record self.old {
          jobs = self.old.jobs ++ (parent.now ++ added ∷ []) ∷ [];
        }) }
        ensures err { OnErr result (self.new ≡ self.old) }
    {
        self.departures.reserve(self.each)?;
        self.departures.extend_from_slice(parent)?;
        self.departures.push_reserved(added);
        self.count += 1;
        Ok(())
    }
}
