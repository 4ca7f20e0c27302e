//! Departures from a default: the last thread while it is enabled, else the next enabled one.

ghost use Rattle.std.specs.Prelude.{◌≡◌, ◌<◌, ◌≤◌, ◌+◌, List, [], ◌∷◌, IfOk, IfSome, IsErrOf, MatchOption, OnSome, false, true};
ghost use Rattle.schedule.specs.Schedules as schedules;
ghost use Rattle.schedule.specs.Schedules.{WritesDepartures};
ghost use Rattle.schedule.specs.Choosers.{chooser_of_schedule, enabled_of, may_be_enabled, next, turns_before, with_choices, IsNextBeside, IsNextFor};
ghost use Rattle.schedule.specs.Rules.{chooser_of_departures, departures_after, departures_left, IsDefaultFor};
ghost use Rattle.departures.specs.declared.departure.Departure.{Departure as DepartureOf};

use crate::fault::ScheduleFault;
use crate::round_robin::Candidate;
use crate::threads::{Beside, Threads, default, has_enabled};
use crate::written::listed;
use departures::Departure;
use jvms_machine::machine::ThreadId;
use shared_data::items::Items;
use shared_data::shared::Shared;
use std::alloc::{AllocError, Global};

/// The departures that are left, and the state of the default. Copies share the departures.
#[derive(Drop)]
pub(crate) struct Staying {
    /// All departures of the schedule.
    pub departures: Shared<Items<Departure>>,
    /// The index of the next departure.
    pub place: usize,
    /// The number of turns before the next departure.
    pub before: u64,
    /// The thread that was chosen last, at first thread 0.
    pub last: ThreadId,
    /// Whether the last choice was a departure to a thread that wasn't enabled.
    pub has_ended: bool,
}

impl Staying {
    /// Returns the state before the first choice of a schedule of these departures.
    pub(crate) fn new(alloc: Global, departures: Vec<Departure>) -> Result<Staying, AllocError>
        ensures { IfOk result (λ s. chooser_of_departures s
            ≡ chooser_of_schedule (schedules.Staying departures.items)) }
    {
        let before = match departures.as_slice().first() {
            Some(departure) => departure.position,
            None => 0,
        };
        Ok(Staying {
            departures: Shared::new(alloc, Items::from_vec(departures))?,
            place: 0,
            before,
            last: 0,
            has_ended: false,
        })
    }

    /// Returns the state before the first choice of the departures that a text writes.
    ///
    /// # Errors
    ///
    /// `Syntax` if the text writes no departures at rising positions. `Memory` if it does and memory runs out.
    pub(crate) fn parse(alloc: Global, text: &str) -> Result<Staying, ScheduleFault>
        ensures staying { IfOk result (λ s. (departures : List DepartureOf)
            × WritesDepartures text.now departures
            × (chooser_of_departures s ≡ chooser_of_schedule (schedules.Staying departures))) }
        ensures syntax { IsErrOf result ScheduleFault.Syntax → (departures : List DepartureOf)
            → ¬ (WritesDepartures text.now departures) }
        ensures memory { IsErrOf result ScheduleFault.Memory
            → (departures : List DepartureOf) × WritesDepartures text.now departures }
    {
        let departures = listed(alloc, text)?;
        let Ok(staying) = Staying::new(alloc, departures) else {
            return Err(ScheduleFault::Memory);
        };
        Ok(staying)
    }

    /// Returns a copy that shares the departures.
    pub(crate) fn copy(&self) -> Result<Staying, AllocError>
        ensures { IfOk result (λ s. chooser_of_departures s ≡ chooser_of_departures self.now) }
    {
        Ok(Staying {
            departures: self.departures.share()?,
            place: self.place,
            before: self.before,
            last: self.last,
            has_ended: self.has_ended,
        })
    }

    /// Returns the next departure, if one is left.
    #[tactic(auto, using(crate::proofs::Stays::left_after, crate::proofs::Stays::none_left))]
    fn next_departure(&self) -> Option<Departure>
        ensures departure { MatchOption result (departures_left self.now ≡ [])
            (λ d. departures_left self.now ≡ d ∷ departures_after self.now) }
        ensures room { OnSome result (self.now.place < usize.MAX) }
    {
        self.departures.as_slice().get(self.place).copied()
    }

    /// Returns the number of turns for which the default is the choice, before the next departure. It is `u64::MAX` if no
    /// departure is left.
    fn default_turns(&self) -> u64
        ensures { (1 ≤ result) → (self.now.has_ended ≡ false)
            × IsDefaultFor result self.now.before (departures_left self.now) }
    {
        if self.has_ended {
            return 0;
        }
        match self.next_departure() {
            Some(_) => self.before,
            None => u64::MAX,
        }
    }

    /// Returns the default, if a thread is enabled, and counts it.
    fn stay<T: Threads>(&mut self, threads: &T) -> Option<ThreadId>
        requires goes_on { self.old.has_ended ≡ false }
        requires default { IsDefaultFor 1 self.old.before (departures_left self.old) }
        ensures { (result, chooser_of_departures self.new) ≡ next (chooser_of_departures self.old)
            (enabled_of (T.passes threads.now) (T.count threads.now)) }
    {
        let chosen = default(threads, self.last)?;
        self.before = self.before.saturating_sub(1);
        self.last = chosen;
        Some(chosen)
    }

    /// Makes the departure that is next, and returns its thread. If that isn't enabled, no choice follows.
    fn depart<T: Threads>(&mut self, departure: Departure, threads: &T) -> ThreadId
        requires goes_on { self.old.has_ended ≡ false }
        requires due { self.old.before ≡ 0 }
        requires next { departures_left self.old ≡ departure ∷ departures_after self.old }
        requires room { self.old.place < usize.MAX }
        ensures { (Some result, chooser_of_departures self.new) ≡ next (chooser_of_departures self.old)
            (enabled_of (T.passes threads.now) (T.count threads.now)) }
    {
        if has_enabled(threads, departure.thread) {
            self.last = departure.thread;
            self.place += 1;
            self.before = self.turns_after(departure.position);
        } else {
            self.has_ended = true;
        }
        departure.thread
    }

    /// Returns the number of turns after a position and before the next departure, or 0 if none is left.
    fn turns_after(&self, position: u64) -> u64
        ensures { result ≡ turns_before (position + 1) (departures_left self.now) }
    {
        match self.next_departure() {
            Some(departure) => departure
                .position
                .saturating_sub(position)
                .saturating_sub(1),
            None => 0,
        }
    }

    /// Returns the next choice, if there is one, and counts it.
    pub(crate) fn next<T: Threads>(&mut self, threads: &T) -> Option<ThreadId>
        ensures { (result, chooser_of_departures self.new) ≡ next (chooser_of_departures self.old)
            (enabled_of (T.passes threads.now) (T.count threads.now)) }
    {
        if self.has_ended {
            return None;
        }
        match self.next_departure() {
            Some(departure) if self.before == 0 => Some(self.depart(departure, threads)),
            _ => self.stay(threads),
        }
    }

    /// Predicts the last thread for the turns before the next departure. Returns `None` if a departure is next, and if
    /// the last thread isn't among the threads.
    pub(crate) fn candidate<T: Threads>(&self, threads: &T) -> Option<Candidate>
        ensures next { IfSome result
            (λ c. IsNextFor c.turns c.thread (T.count threads.now) (chooser_of_departures self.now)) }
        ensures some { IfSome result (λ c. 1 ≤ c.turns) }
    {
        let turns = self.default_turns();
        if turns == 0 || self.last >= threads.count() {
            return None;
        }
        Some(Candidate {
            thread: self.last,
            turns,
        })
    }

    /// Predicts the default beside idle threads. Returns `None` if a departure is next, and if all threads are idle.
    pub(crate) fn candidate_beside(&self, count: u32, idle: &[bool]) -> Option<ThreadId>
        ensures next { IfSome result
            (λ t. IsNextBeside idle.now t count (chooser_of_departures self.now)) }
        ensures beside { IfSome result (λ t. may_be_enabled idle.now t ≡ true) }
    {
        if self.default_turns() == 0 {
            return None;
        }
        default(&Beside { count, idle }, self.last)
    }

    /// Counts consecutive choices of a thread, none of which is a departure.
    #[tactic(auto, using(crate::proofs::Candidates::counted_none, crate::proofs::Candidates::listed_stays, crate::proofs::Stays::counted))]
    pub(crate) fn count_times(&mut self, chosen: ThreadId, times: u64)
        ensures { chooser_of_departures self.new
            ≡ with_choices times chosen (chooser_of_departures self.old) }
    {
        if times == 0 {
            return;
        }
        self.before = self.before.saturating_sub(times);
        self.last = chosen;
    }
}
