//! Round robin: each enabled thread in turn, for a quantum of consecutive turns.

ghost use Rattle.std.specs.Prelude.{◌≡◌, ◌≤◌, IfSome, true};
ghost use Rattle.schedule.specs.Choosers.{enabled_of, stays, round_robin, after_choice, turns_with, with_choices, may_be_enabled, IsNextBeside, IsNextFor, RoundRobin};

use crate::threads::{Beside, Threads, has_enabled, next_enabled};
use jvms_machine::machine::ThreadId;

/// A prediction of the next choice: a thread for a number of consecutive turns, as long as it is enabled.
#[derive(Clone, Copy, Debug)]
pub struct Candidate {
    /// The thread.
    pub thread: ThreadId,
    /// The number of consecutive turns, at least 1.
    pub turns: u64,
}

/// The state of round robin: its quantum, and the consecutive turns of the last thread.
#[derive(Clone, Copy)]
pub(crate) struct Turns {
    /// The number of consecutive turns of a thread while another one is enabled.
    pub quantum: u32,
    /// The thread that was chosen last, at first thread 0.
    pub thread: ThreadId,
    /// The number of last consecutive choices of that thread, counted up to the quantum.
    pub turns: u32,
}

impl Turns {
    /// Returns whether the last thread stays the choice: it is enabled and has turns left.
    fn stays<T: Threads>(&self, threads: &T) -> bool
        ensures { result ≡ stays self.now.quantum self.now.thread self.now.turns
            (enabled_of (T.passes threads.now) (T.count threads.now)) }
    {
        self.turns < self.quantum && has_enabled(threads, self.thread)
    }

    /// Returns the thread of the next turn, if one is enabled.
    fn choice<T: Threads>(&self, threads: &T) -> Option<ThreadId>
        ensures { result ≡ round_robin self.now.quantum self.now.thread self.now.turns
            (enabled_of (T.passes threads.now) (T.count threads.now)) }
    {
        if self.stays(threads) {
            Some(self.thread)
        } else {
            next_enabled(threads, self.thread)
        }
    }

    /// Predicts the thread of the next turn and its number of consecutive turns, without inspecting any thread.
    /// That is the only thread, or the last thread for its remaining turns, else the thread after it, round to the
    /// least.
    #[tactic(auto, using(crate::proofs::Candidates::alone_for, crate::proofs::Candidates::stays_for, crate::proofs::Candidates::above_for, crate::proofs::Candidates::least_for))]
    pub(crate) fn candidate<T: Threads>(&self, threads: &T) -> Option<Candidate>
        ensures next { IfSome result (λ c. IsNextFor c.turns c.thread (T.count threads.now)
            (RoundRobin self.now.quantum self.now.thread self.now.turns)) }
        ensures some { IfSome result (λ c. 1 ≤ c.turns) }
    {
        let count = threads.count();
        if self.thread >= count {
            return None;
        }
        if count == 1 {
            return Some(Candidate {
                thread: self.thread,
                turns: u64::MAX,
            });
        }
        if self.turns < self.quantum {
            return Some(Candidate {
                thread: self.thread,
                turns: u64::from(self.quantum - self.turns),
            });
        }
        let above = self.thread + 1;
        let thread = if above < count { above } else { 0 };
        Some(Candidate { thread, turns: 1 })
    }

    /// Predicts the next choice beside idle threads, without inspecting any thread. That is the last thread for its
    /// remaining turns, if it isn't idle, else the next thread that isn't idle. Returns `None` if all threads are idle.
    #[tactic(auto, using(crate::proofs::Beside::choice_beside))]
    pub(crate) fn candidate_beside(&self, count: u32, idle: &[bool]) -> Option<ThreadId>
        ensures next { IfSome result (λ t. IsNextBeside idle.now t count
            (RoundRobin self.now.quantum self.now.thread self.now.turns)) }
        ensures beside { IfSome result (λ t. may_be_enabled idle.now t ≡ true) }
    {
        self.choice(&Beside { count, idle })
    }

    /// Counts a turn of a thread.
    pub(crate) fn count(&mut self, chosen: ThreadId)
        ensures { self.new ≡ record self.old {
          thread = chosen;
          turns = turns_with self.old.quantum self.old.thread self.old.turns chosen;
        } }
    {
        if chosen == self.thread {
            self.turns = self.quantum.min(self.turns.saturating_add(1));
        } else {
            self.thread = chosen;
            self.turns = 1;
        }
    }

    /// Counts more turns of the last thread, at least one.
    #[tactic(auto, using(crate::proofs::Candidates::counted_on))]
    fn count_on(&mut self, times: u64)
        requires { 1 ≤ times }
        ensures { RoundRobin self.new.quantum self.new.thread self.new.turns ≡ with_choices times
            self.old.thread (RoundRobin self.old.quantum self.old.thread self.old.turns) }
    {
        let left = self.quantum.saturating_sub(self.turns);
        if times < u64::from(left) {
            self.turns += times as u32;
        } else {
            self.turns = self.quantum;
        }
    }

    /// Counts consecutive turns of a thread.
    #[tactic(auto, using(crate::proofs::Candidates::counted_none, crate::proofs::Candidates::counted_first))]
    pub(crate) fn count_times(&mut self, chosen: ThreadId, times: u64)
        ensures { RoundRobin self.new.quantum self.new.thread self.new.turns ≡ with_choices times
            chosen (RoundRobin self.old.quantum self.old.thread self.old.turns) }
    {
        if times == 0 {
            return;
        }
        self.count(chosen);
        if times > 1 {
            self.count_on(times - 1);
        }
    }

    /// Returns the next choice, if a thread is enabled, and counts it.
    pub(crate) fn next<T: Threads>(&mut self, threads: &T) -> Option<ThreadId>
        ensures choice { result ≡ round_robin self.old.quantum self.old.thread self.old.turns
            (enabled_of (T.passes threads.now) (T.count threads.now)) }
        ensures after { RoundRobin self.new.quantum self.new.thread self.new.turns
            ≡ after_choice self.old.quantum self.old.thread self.old.turns result }
    {
        let chosen = self.choice(threads)?;
        self.count(chosen);
        Some(chosen)
    }
}
