//! Sessions of the debugger.

ghost use Rattle.std.specs.Prelude.{◌≡◌, ◌+◌, ◌/◌, ◌≤◌, ◌∷◌, [], IfErr, IfOk, OnErr};
ghost use Rattle.std.specs.Vec.{vec_capacity};
ghost use Rattle.machine.specs.Started.{opened_machine};
ghost use Rattle.debugger.specs.Commands.{Did, IsRefused};
ghost use Rattle.debugger.specs.Marks.{IsSpacing};
ghost use Rattle.debugger.specs.Sessions.{IsBegun};
ghost use Rattle.debugger.specs.States.{items_at, machine_at, outcome_at, setting_of};
ghost use Rattle.debugger.specs.Timelines.{IsTimeline, extent, opening_extent};

use crate::body::Body;
use crate::breakpoints::Breakpoints;
use crate::checkpoint::{Checkpoint, push_saved};
use crate::mark::Mark;
use crate::timeline::Timeline;
use crate::view::View;
use debugger_commands::{Command, DebugFault};
use jvms_machine::machine::{Entry, Limits, Outcome, ThreadId};
use jvms_machine::trace::Item;
use machine::{Machine, MachineFault};
use program::Program;
use std::alloc::{AllocError, Global};
use std::marker::Model;
use trace::Trace;

/// The maximum number of checkpoints.
const MOST_CHECKPOINTS: usize = 64;

/// A session of the debugger: a program with the choices of a run, a position among them, and breakpoints. Contracts
/// also see the positions that bound the number of turns.
#[derive(Drop)]
pub struct Session<'p> {
    body: Body<'p>,
}

impl<'p> Model for Session<'p> {
    ghost use Rattle.debugger.specs.Sessions.{Debugger, IsBody, debugger_of};

    ghost Value = { Debugger };

    ghost view = { λ s. debugger_of s.body };

    ghost invariant = { λ s. IsBody s.body };
}

/// Returns the checkpoints of a timeline before its first choice: the machine there, with memory for all others.
fn first_checkpoints<'p>(alloc: Global, here: &Mark<'p>) -> Result<Vec<Checkpoint<'p>>, AllocError>
    ensures marks { IfOk result (λ v. v.items ≡ here.now ∷ []) }
    ensures room { IfOk result (λ v. 64 ≤ vec_capacity v) }
{
    let mut checkpoints = Vec::with_capacity(alloc, MOST_CHECKPOINTS)?;
    push_saved(&mut checkpoints, here, None)?;
    Ok(checkpoints)
}

/// Returns a timeline of some choices, before the first one.
fn timeline_of<'p>(
    alloc: Global,
    machine: Machine<'p>,
    choices: Vec<ThreadId>,
) -> Result<Timeline<'p>, AllocError>
    requires { machine ≡ opened_machine machine.program machine.limits machine.start }
    ensures timeline { IfOk result (λ t. IsTimeline t) }
    ensures extent { IfOk result (λ t. extent t
        ≡ opening_extent (setting_of machine.entry) choices.items) }
{
    let here = Mark {
        machine,
        items: 0,
        outcome: None,
    };
    match first_checkpoints(alloc, &here) {
        Ok(checkpoints) => Ok(Timeline {
            alloc,
            choices,
            position: 0,
            here,
            most: 0,
            far: 0,
            spacing: 1,
            checkpoints,
        }),
        Err(error) => {
            drop(here);
            Err(error)
        }
    }
}

impl<'p> Session<'p> {
    /// Begins a session before the first of these choices, without a breakpoint.
    ///
    /// # Errors
    ///
    /// Those of `Machine::new`: M01 if the entry names no method to begin with, else M02 if a limit is out of its
    /// range. M03 if memory ran out.
    pub fn new(
        alloc: Global,
        program: &'p Program,
        limits: Limits,
        entry: &Entry,
        choices: Vec<ThreadId>,
    ) -> Result<Session<'p>, MachineFault>
        ensures { IsBegun program.now limits entry.now choices.items result }
    {
        let machine = Machine::new(alloc, program, limits, entry)?;
        Ok(Session {
            body: Body {
                timeline: timeline_of(alloc, machine, choices)?,
                trace: Trace::new(alloc),
                breakpoints: Breakpoints::new(alloc),
                replayed: 0,
            },
        })
    }

    /// Executes a command, and returns its view. A command that is refused changes nothing.
    ///
    /// # Errors
    ///
    /// B03 if no thread has the number of `frames`. B04 if no object has the reference of `object`. B05 if no
    /// breakpoint has the number of `delete`, or all numbers have been used. B06 if there is no such place or class.
    /// B07 if memory ran out and there is no other fault.
    pub fn command(&mut self, command: Command) -> Result<View, DebugFault>
        ensures did { IfOk result (λ view. Did command self.old self.new view) }
        ensures spacing { IsSpacing self.new.most self.new.spacing }
        ensures refused { IfErr result (λ fault. IsRefused command self.old fault) }
        ensures kept { OnErr result (self.new ≡ self.old) }
    {
        self.body.carry_out(&command)
    }

    /// Returns the number of turns that the last accepted command took.
    pub fn replayed(&self) -> u64
        ensures { result ≡ self.now.replayed }
    {
        self.body.replayed
    }

    /// Returns the choices.
    pub fn choices(&self) -> &[ThreadId]
        ensures { result.now ≡ self.now.session.choices }
    {
        self.body.timeline.choices.as_slice()
    }

    /// Returns the position: the number of choices before it.
    pub fn position(&self) -> usize
        ensures { result ≡ self.now.session.position }
    {
        self.body.timeline.position
    }

    /// Returns the machine after the choices before the position.
    pub fn machine(&self) -> &Machine<'p>
        ensures { result.now ≡ machine_at self.now.setting self.now.session.choices
            self.now.session.position }
    {
        &self.body.timeline.here.machine
    }

    /// Returns the items of the choices before the position.
    pub fn items(&self) -> &[Item]
        ensures { result.now ≡ items_at self.now.setting self.now.session.choices
            self.now.session.position }
    {
        &self.body.trace.items()[..self.body.timeline.here.items]
    }

    /// Returns the outcome of the last choice before the position, if there is one.
    pub fn last_outcome(&self) -> Option<Outcome>
        ensures { result ≡ outcome_at self.now.setting self.now.session.choices
            self.now.session.position }
    {
        self.body.timeline.here.outcome
    }

    /// Returns the number of checkpoints.
    pub fn checkpoint_count(&self) -> usize
        ensures count { result ≡ self.now.far / self.now.spacing + 1 }
        ensures few { result ≤ 64 }
    {
        self.body.timeline.checkpoints.len()
    }
}
