//! The machine.

ghost use Rattle.std.specs.Prelude.{◌≡◌, ◌≤◌, ◌++◌, length, IsOk, IsTrue, IfOk, OnOk, OnErr, is_ok};
ghost use Rattle.jvms_machine.specs.Opening.{start_of_entry};
ghost use Rattle.jvms_machine.specs.State.{Sound};
ghost use Rattle.local_laws.specs.Local.{is_local};
ghost use Rattle.invoke.specs.machine_parts.Machine.{transition_of, with_state, TakesNone};
ghost use Rattle.machine.specs.Others.{LeavesOthers};
ghost use Rattle.machine.specs.Runs.{AreRunTurns};
ghost use Rattle.machine.specs.Started.{IsNew};
ghost use Rattle.trace.specs.Recording.{with_items};

use crate::applying::Turn;
use crate::fault::MachineFault;
use crate::limits::are_limits;
use crate::local::is_local;
use crate::opening::open;
use crate::peek::peek;
use crate::running::{step, step_consecutive};
use crate::start::start_of;
use invoke::machine_parts::Parts;
use invoke::program::Program;
use jvms_machine::machine::{Entry, Limits, Outcome, ThreadId};
use jvms_machine::value::Value;
use std::alloc::{AllocError, Global};
use std::marker::Model;
use trace::{Recording, Trace};

/// Decides whether a machine can be made of this program with these limits and this entry. The entry's method must
/// exist, be static, not be `<clinit>`, and take the arguments. Each limit must be in its range. Takes no memory.
pub fn admits(program: &Program, limits: Limits, entry: &Entry) -> bool
    ensures { result ≡ is_ok (start_of_entry program.now limits entry.now) }
{
    start_of(program, entry).is_some() && are_limits(limits)
}

/// A machine: a program, the limits of its run, its start, and its state (JVMS 2.5). Contracts see these. Its state is
/// always sound.
#[derive(Drop)]
pub struct Machine<'p> {
    pub(crate) parts: Parts<'p>,
}

impl<'p> Model for Machine<'p> {
    ghost use Rattle.invoke.specs.machine_parts.Machine.{Machine as Seen, IsMachine};

    ghost Value = { Seen };

    ghost view = { λ m. m.parts };

    ghost invariant = { λ m. IsMachine m.parts };
}

impl<'p> Machine<'p> {
    /// Returns a machine at the opening of a run. The error is `NoEntry` before `Limits`, and `Memory` only if neither
    /// applies.
    pub fn new(
        alloc: Global,
        program: &'p Program,
        limits: Limits,
        entry: &Entry,
    ) -> Result<Machine<'p>, MachineFault>
        ensures { IsNew program.now limits entry.now result }
    {
        let Some(method) = start_of(program, entry) else {
            return Err(MachineFault::NoEntry);
        };
        if !are_limits(limits) {
            return Err(MachineFault::Limits);
        }
        program.program_invariant();
        let parts = open(alloc, program, limits, method, entry)?;
        Ok(Machine { parts })
    }

    /// Returns a copy with the same program, limits, start and state. Both continue independently.
    pub fn copy(&self) -> Result<Machine<'p>, AllocError>
        ensures { IfOk result (λ machine. machine ≡ self.now) }
    {
        Ok(Machine {
            parts: self.parts.copy()?,
        })
    }

    /// Takes the turn of a thread, by its transition in the instruction table, and returns its outcome. The state
    /// changes by the transition, and its items are appended to the trace. If there is no memory, nothing changes.
    pub fn step(&mut self, t: ThreadId, trace: &mut Trace) -> Result<Outcome, AllocError>
        ensures outcome { IfOk result (λ o. o ≡ (transition_of self.old t).outcome) }
        ensures state { OnOk result
            (self.new ≡ with_state self.old (transition_of self.old t).state) }
        ensures items { OnOk result (trace.new ≡ trace.old ++ (transition_of self.old t).items) }
        ensures kept { OnErr result (self.new ≡ self.old) }
        ensures no_items { OnErr result (trace.new ≡ trace.old) }
        // A turn that pushes no frame, creates no object, gives no item and prints nothing takes no memory.
        ensures none { TakesNone self.old t → IsOk result }
    {
        let mut recording = Recording::taken_from(self.parts.alloc, trace);
        let outcome = self.step_recorded(t, &mut recording);
        recording.give_back(trace);
        outcome
    }

    /// Takes the turn of a thread as `step` does, and records its items if items are recorded.
    pub fn step_recorded(
        &mut self,
        t: ThreadId,
        recording: &mut Recording,
    ) -> Result<Outcome, AllocError>
        ensures outcome { IfOk result (λ o. o ≡ (transition_of self.old t).outcome) }
        ensures state { OnOk result
            (self.new ≡ with_state self.old (transition_of self.old t).state) }
        ensures items { OnOk result
            (recording.new ≡ with_items recording.old (transition_of self.old t).items) }
        ensures kept { OnErr result (self.new ≡ self.old) }
        ensures no_items { OnErr result (recording.new ≡ recording.old) }
        ensures none { TakesNone self.old t → IsOk result }
    {
        let turn = self.step_watched(t, recording)?;
        Ok(turn.outcome)
    }

    /// Takes consecutive turns of a thread, at most `most`, and returns their number. Each completes with `Ran`, and
    /// none follows a turn that starts a thread. Their items are recorded if items are. It stops before a turn with any
    /// other outcome, and before one without memory.
    pub fn step_consecutive(&mut self, t: ThreadId, most: u64, recording: &mut Recording) -> u64
        ensures most { result ≤ most }
        ensures ran { AreRunTurns result t
            (length self.old.state.threads) self.old recording.old self.new recording.new }
    {
        step_consecutive(&mut self.parts, t, most, recording)
    }

    /// Takes the turn of a thread as `step_recorded` does, and returns its outcome and whether it was quiet. A quiet
    /// turn leaves each other thread whose turn isn't Bad as enabled as it was, and no such turn becomes Bad. If there
    /// is no memory, nothing changes.
    #[inline(always)]
    pub fn step_watched(
        &mut self,
        t: ThreadId,
        recording: &mut Recording,
    ) -> Result<Turn, AllocError>
        ensures outcome { IfOk result (λ turn. turn.outcome ≡ (transition_of self.old t).outcome) }
        ensures state { OnOk result
            (self.new ≡ with_state self.old (transition_of self.old t).state) }
        ensures items { OnOk result
            (recording.new ≡ with_items recording.old (transition_of self.old t).items) }
        ensures others { IfOk result
            (λ turn. IsTrue turn.is_quiet → LeavesOthers self.old t self.new) }
        ensures kept { OnErr result (self.new ≡ self.old) }
        ensures no_items { OnErr result (recording.new ≡ recording.old) }
        ensures none { TakesNone self.old t → IsOk result }
    {
        step(&mut self.parts, t, recording)
    }

    /// Returns the outcome of a thread's next turn, with nothing changed. Takes no memory.
    #[tactic(auto, using(crate::proofs::Callers::threads_are_numbered, crate::proofs::Sites::have_their_code))]
    pub fn peek(&self, t: ThreadId) -> Outcome
        ensures { result ≡ (transition_of self.now t).outcome }
    {
        peek(&self.parts, t)
    }

    /// Decides whether a thread's next turn is local: it touches its top frame alone, or is a call that enters no monitor
    /// or a return that leaves none. Takes no memory.
    #[tactic(auto, using(crate::proofs::Callers::threads_are_numbered, crate::proofs::Sites::have_their_code))]
    pub fn is_local(&self, t: ThreadId) -> bool
        ensures { result
            ≡ is_local self.now.program self.now.limits self.now.start self.now.state t }
    {
        is_local(&self.parts, t)
    }

    /// Proves that the state of every machine is sound. Does nothing.
    pub fn state_is_sound(&self)
        ensures { Sound self.now.program self.now.limits self.now.state }
    {
        let _ = &self.parts;
    }

    /// Returns the bytes that were printed.
    pub fn output(&self) -> &[u8]
        ensures { result.now ≡ self.now.state.output }
    {
        self.parts.output.as_slice()
    }

    /// Returns the result of thread 0's entry method, if it has returned a value.
    pub fn result(&self) -> Option<Value>
        ensures { result ≡ self.now.state.result }
    {
        self.parts.result
    }

    /// Returns the number of threads that were ever started, thread 0 included.
    pub fn thread_count(&self) -> usize
        ensures { result ≡ length self.now.state.threads }
    {
        self.parts.threads.len()
    }
}
