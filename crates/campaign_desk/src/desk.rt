//! The desk of a campaign. Only `open` allocates memory, and no call waits for another worker.

ghost use Rattle.std.specs.Prelude.{◌≡◌, ◌<◌, All, vec_len, IfOk};
ghost use Rattle.campaign_desk.specs.Knowledge.{after_lower, after_bound, IsLeastFor};
ghost use Rattle.campaign_desk.specs.Facts.{IsDesk};
ghost use Rattle.campaign_desk.specs.Reached.{IsReached};
ghost use Rattle.campaign_desk.specs.Desk.{new_seats, knowledge_of};

use crate::fault::DeskFault;
use crate::knowledge::{DeskRule, Terms, View};
use crate::seat::{Claim, Seat, join_seats, split_seats};
use crate::steps::{draw_next, load_bound, load_next, lower_bound};
use atomic_table::Table;
use std::alloc::Global;
use std::marker::Model;

/// The maximum number of jobs of a desk.
const MOST_JOBS: u64 = 1_000_000;

/// The maximum number of workers of a desk.
const MOST_WORKERS: u64 = 64;

/// A desk: two words that workers share, the next number to draw and a bound.
#[derive(Drop)]
pub struct Desk {
    table: Table<(), View, Terms, DeskRule, Global>,
    jobs: u64,
    workers: u64,
}

impl Model for Desk {
    ghost use Rattle.campaign_desk.specs.Desk.{DeskValue, IsTable, desk_at};

    ghost Value = { DeskValue };

    ghost view = { λ d. desk_at d.table.shared.table_id d.jobs d.workers };

    ghost invariant = { λ d. IsTable d.table.shared.key d.table.shared.table_id d.jobs d.workers };
}

impl Desk {
    ghost use Rattle.campaign_desk.specs.Desk.{IsSeatOf};
    ghost use Rattle.campaign_desk.specs.Calls.{IsClaim, KeepsLimits};

    /// Opens a desk, and returns it with a seat for each worker. Job 0 is the next, and the bound is the number of
    /// jobs.
    ///
    /// # Errors
    ///
    /// The first that applies: `TooManyJobs` for more than 1,000,000 jobs, `TooManyWorkers` for no worker or more than
    /// 64, and `Memory` if memory ran out.
    pub fn open(alloc: Global, jobs: u64, workers: u64) -> Result<(Desk, Vec<Seat>), DeskFault>
        ensures limits { KeepsLimits jobs workers result }
        ensures desk { IfOk result (λ r. (r.0.jobs ≡ jobs) × (r.0.workers ≡ workers)) }
        ensures seats { IfOk result (λ r. r.1.items ≡ new_seats r.0.table jobs workers) }
    {
        if jobs > MOST_JOBS {
            return Err(DeskFault::TooManyJobs);
        }
        if workers == 0 || workers > MOST_WORKERS {
            return Err(DeskFault::TooManyWorkers);
        }
        let Ok(seats) = Vec::with_capacity(alloc, workers as usize) else {
            return Err(DeskFault::Memory);
        };
        let Ok((table, pass)) = Table::of_words(alloc, &[0, jobs], &Terms { jobs, workers }) else {
            return Err(DeskFault::Memory);
        };
        let seats = split_seats(&table.shared, pass, seats, workers);
        Ok((
            Desk {
                table,
                jobs,
                workers,
            },
            seats,
        ))
    }

    /// Returns the next job, or that none is left. It takes one load and at most one addition. At a seat that got
    /// `Done` before it takes no step.
    pub fn claim(&self, seat: &mut Seat) -> Claim
        requires desk { IsSeatOf self.now seat.old }
        ensures desk { IsSeatOf self.now seat.new }
        ensures claim { IsClaim self.now.jobs result seat.old.knowledge seat.new.knowledge }
    {
        if seat.is_done {
            return Claim::Done;
        }
        if load_next(&self.table.shared, &mut seat.pass) >= self.jobs {
            seat.is_done = true;
            return Claim::Done;
        }
        let number = draw_next(&self.table.shared, &mut seat.pass);
        if number >= self.jobs {
            seat.is_done = true;
            return Claim::Done;
        }
        Claim::Job(number)
    }

    /// Lowers the bound to a job's number, if that is less, in one step.
    pub fn lower(&self, seat: &mut Seat, number: u64)
        requires desk { IsSeatOf self.now seat.old }
        requires job { number < self.now.jobs }
        ensures desk { IsSeatOf self.now seat.new }
        ensures lower { seat.new.knowledge ≡ after_lower seat.old.knowledge number }
    {
        lower_bound(&self.table.shared, &mut seat.pass, number);
    }

    /// Returns the bound, in one load: the number of jobs, or the least number to which a seat has lowered it.
    pub fn bound(&self, seat: &mut Seat) -> u64
        requires desk { IsSeatOf self.now seat.old }
        ensures desk { IsSeatOf self.now seat.new }
        ensures look { seat.new.knowledge ≡ after_bound seat.old.knowledge result }
        ensures least { IsLeastFor seat.old.knowledge result }
    {
        load_bound(&self.table.shared, &mut seat.pass)
    }

    /// Closes the desk with all its seats, and returns the next number and the bound. The knowledge of the seats is
    /// consistent with them.
    pub fn close(self, mut seats: Vec<Seat>) -> (u64, u64)
        requires all { vec_len seats ≡ self.workers }
        requires desk { All (λ s. s.table ≡ self.table) seats.items }
        ensures reached { IsReached self.jobs self.workers result.0 result.1
            (knowledge_of seats.items) }
        ensures facts { IsDesk self.jobs self.workers result.0 result.1 (knowledge_of seats.items) }
    {
        let Desk {
            table,
            jobs: _,
            workers: _,
        } = self;
        let Some(last) = seats.pop() else {
            unreachable!()
        };
        let all = join_seats(&table.shared, seats, last);
        let closed = table.close_with(all);
        let words = (closed.word(0), closed.word(1));
        closed.free();
        words
    }
}
