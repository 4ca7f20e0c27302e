//! The enabled threads of a machine, kept from turn to turn of a run.

ghost use Rattle.std.specs.Prelude.{◌≡◌, ◌++◌, [], ◌&&◌, false, IsTrue, OnOk};
ghost use Rattle.jvms_machine.specs.Status.{is_bad};
ghost use Rattle.runs.specs.Kept.{AreEnabled, IsKept, MarksOne, is_fit, one_enabled};
ghost use Rattle.schedule.specs.Enabled.{enabled_threads};

use machine::{Machine, Outcome, ThreadId, is_bad, is_enabled};
use std::alloc::{AllocError, Global};

/// A list of the enabled threads of a machine, in rising order, if it is current, and marks of idle threads.
#[derive(Drop)]
pub(crate) struct Kept {
    /// The threads.
    pub threads: Vec<ThreadId>,
    /// Set if these are the enabled threads, and no thread's turn is Bad.
    pub is_current: bool,
    /// Marks idle threads by their numbers: they aren't enabled, and their turns aren't Bad. There may be others.
    pub idle: Vec<bool>,
}

/// Marks a thread. If there is no memory, nothing changes.
fn mark(marks: &mut Vec<bool>, thread: ThreadId)
    ensures { MarksOne marks.old.items marks.new.items thread }
{
    let place = thread as usize;
    if place >= marks.len() {
        let Ok(()) = marks.resize(place + 1, false) else {
            return;
        };
    }
    marks[place] = true;
}

impl Kept {
    /// Returns a list that isn't current, and no idle threads.
    pub(crate) fn new(alloc: Global) -> Kept
        ensures current { result.is_current ≡ false }
        ensures idle { result.idle.items ≡ [] }
    {
        Kept {
            threads: Vec::new(alloc),
            is_current: false,
            idle: Vec::new(alloc),
        }
    }

    /// Marks the list as not current, and no thread as idle.
    #[inline(always)]
    pub(crate) fn forget(&mut self)
        ensures current { self.new.is_current ≡ false }
        ensures idle { self.new.idle.items ≡ [] }
    {
        self.is_current = false;
        self.idle.clear();
    }

    /// Marks no thread as idle.
    #[inline(always)]
    pub(crate) fn forget_idle(&mut self)
        ensures current { self.new.is_current ≡ self.old.is_current }
        ensures threads { self.new.threads ≡ self.old.threads }
        ensures idle { self.new.idle.items ≡ [] }
    {
        self.idle.clear();
    }

    /// Marks a thread that isn't enabled as idle, unless its turn is Bad. If there is no memory, nothing changes.
    pub(crate) fn note_idle(&mut self, thread: ThreadId, outcome: Outcome)
        ensures current { self.new.is_current ≡ self.old.is_current }
        ensures threads { self.new.threads ≡ self.old.threads }
        ensures bad { IsTrue (is_bad outcome) → self.new.idle.items ≡ self.old.idle.items }
        ensures idle { MarksOne self.old.idle.items self.new.idle.items thread }
    {
        if !is_bad(outcome) {
            mark(&mut self.idle, thread);
        }
    }

    /// Marks the list as not current after a turn of a thread that isn't idle. After a turn that wasn't quiet, no
    /// thread is marked as idle.
    #[inline(always)]
    pub(crate) fn note_turn(&mut self, is_quiet: bool)
        ensures current { self.new.is_current ≡ false }
        ensures quiet { IsTrue is_quiet → self.new.idle.items ≡ self.old.idle.items }
        ensures other { is_quiet ≡ false → self.new.idle.items ≡ [] }
    {
        self.is_current = false;
        if is_quiet {
            return;
        }
        self.idle.clear();
    }

    /// Appends a thread if it is enabled. If its turn is Bad, the list isn't current.
    fn inspect(&mut self, machine: &Machine<'_>, thread: ThreadId) -> Result<(), AllocError>
        ensures threads { OnOk result
            (self.new.threads.items ≡ self.old.threads.items ++ one_enabled machine.now thread) }
        ensures fit { OnOk result
            (self.new.is_current ≡ self.old.is_current && is_fit machine.now thread) }
        ensures idle { OnOk result (self.new.idle.items ≡ self.old.idle.items) }
    {
        let outcome = machine.peek(thread);
        if is_bad(outcome) {
            self.is_current = false;
        }
        if is_enabled(outcome) {
            self.threads.push(thread)?;
        }
        Ok(())
    }

    /// Inspects each thread of a machine, and lists those that are enabled.
    fn inspect_all(&mut self, machine: &Machine<'_>) -> Result<(), AllocError>
        ensures threads { OnOk result (self.new.threads.items ≡ enabled_threads machine.now) }
        ensures kept { OnOk result
            (IsTrue self.new.is_current → AreEnabled machine.now self.new.threads.items) }
        ensures idle { OnOk result (self.new.idle.items ≡ self.old.idle.items) }
    {
        // There are at most as many threads as the limit, so each number fits `ThreadId`.
        machine.state_is_sound();
        let _limits = machine.limits();
        self.threads.clear();
        self.is_current = true;
        for thread in 0..machine.thread_count() {
            self.inspect(machine, thread as ThreadId)?;
        }
        Ok(())
    }

    /// Lists the enabled threads of a machine, unless the list is current.
    #[inline(always)]
    pub(crate) fn refresh(&mut self, machine: &Machine<'_>) -> Result<(), AllocError>
        requires { IsKept machine.now self.old }
        ensures threads { OnOk result (self.new.threads.items ≡ enabled_threads machine.now) }
        ensures kept { OnOk result (IsKept machine.now self.new) }
        ensures idle { OnOk result (self.new.idle.items ≡ self.old.idle.items) }
    {
        if self.is_current {
            return Ok(());
        }
        self.inspect_all(machine)
    }
}
