//! The jobs of the next level, as they are found.

ghost use Rattle.std.specs.Prelude.{◌≡◌, ◌+◌, ◌++◌, [], List, OnOk, length};
ghost use Rattle.departures.specs.declared.departure.Departure.{Departure};
ghost use Rattle.explore_jobs.specs.Children.{with_each};
ghost use Rattle.exploring.specs.Growths.{IsGrowthOf};

use crate::jobs::Jobs;
use departures::Departure;
use std::alloc::{AllocError, Global};

/// The jobs of the next level that were found: the first of them, and the number of all.
#[derive(Drop)]
pub(crate) struct Growth {
    pub jobs: Jobs,
    pub count: u64,
}

impl Growth {
    /// Returns a level without a job, whose jobs are to have this number of departures.
    pub(crate) fn new(alloc: Global, each: usize) -> Growth
        ensures { result ≡ record { jobs = record { each = each; jobs = [] }; count = 0 } }
    {
        Growth {
            jobs: Jobs::without_jobs(alloc, each),
            count: 0,
        }
    }

    /// Appends the children of a job that add these departures, and keeps at most `room` jobs.
    ///
    /// # Errors
    ///
    /// Memory ran out, or there are more than 18,446,744,073,709,551,615 jobs.
    pub(crate) fn add(
        &mut self,
        parent: &[Departure],
        added: &[Departure],
        room: usize,
    ) -> Result<(), AllocError>
        requires each { length parent.now + 1 ≡ self.old.jobs.each }
        ensures grows { (jobs : List (List Departure)) → IsGrowthOf room jobs self.old
            → OnOk result (IsGrowthOf room (jobs ++ with_each parent.now added.now) self.new) }
        ensures each { self.new.jobs.each ≡ self.old.jobs.each }
    {
        let free = room.saturating_sub(self.jobs.len());
        let kept = added.len().min(free);
        for departure in &added[..kept] {
            self.jobs.push_child(parent, *departure)?;
        }
        let Some(count) = self.count.checked_add(added.len() as u64) else {
            return Err(AllocError);
        };
        self.count = count;
        Ok(())
    }
}
