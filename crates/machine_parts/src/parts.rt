//! The parts of a machine.

ghost use Rattle.std.specs.Prelude.{◌≡◌, IfOk};
ghost use Rattle.jvms_machine.specs.State.{monitor_at};
ghost use Rattle.jvms_machine.specs.Threads.{thread_of};
ghost use Rattle.jvms_machine.specs.Waiting.{is_waiter};
ghost use Rattle.machine_parts.specs.Saved.{empty_heap, with_objects, without_objects};

use jvms_machine::machine::{Limits, ThreadId};
use jvms_machine::state::{Hold, Initialisation};
use jvms_machine::value::Value;
use jvms_program::number::MethodNumber;
use machine_thread::Thread;
use machine_thread::heap::{Heap, Statics};
use machine_thread::program::Program;
use monitors::{Monitors, Waiters};
use std::alloc::{AllocError, Global};
use std::marker::Model;
use std::mem::replace;

/// The parts of a machine, valid also in the middle of a turn. The program is that of the heap.
#[derive(Drop)]
pub struct Parts<'p> {
    pub alloc: Global,
    pub limits: Limits,
    pub method: MethodNumber,
    pub arguments: Vec<Value>,
    pub heap: Heap<'p>,
    pub statics: Statics<'p>,
    pub initialisations: Vec<Initialisation>,
    pub threads: Vec<Thread<'p>>,
    pub monitors: Monitors,
    pub waiters: Waiters,
    pub output: Vec<u8>,
    pub result: Option<Value>,
}

impl<'p> Model for Parts<'p> {
    ghost use Rattle.std.specs.Prelude.{◌≡◌};
    ghost use Rattle.machine_parts.specs.Machine.{Machine as Seen};

    ghost Value = { Seen };

    ghost view = { λ m. record {
      program = m.heap.program;
      limits = m.limits;
      start = record { method = m.method; arguments = m.arguments.items };
      state = record {
        heap = m.heap.objects;
        monitors = m.monitors;
        waiters = m.waiters;
        statics = m.statics.fields;
        initialisations = m.initialisations.items;
        threads = m.threads.items;
        elements = m.heap.elements;
        output = m.output.items;
        result = m.result;
      };
    } };

    // The static fields are those of the heap's program.
    ghost invariant = { λ m. m.statics.program ≡ m.heap.program };
}

/// Returns copies of the threads.
fn copied_threads<'p>(alloc: Global, threads: &[Thread<'p>]) -> Result<Vec<Thread<'p>>, AllocError>
    ensures { IfOk result (λ copies. copies.items ≡ threads.now) }
{
    let mut copies = Vec::with_capacity(alloc, threads.len())?;
    for thread in threads {
        copies.push(thread.copy(alloc)?)?;
    }
    Ok(copies)
}

/// Returns a heap without objects, and a copy of the static fields.
fn fields_without_objects<'p>(
    alloc: Global,
    heap: &Heap<'p>,
    statics: &Statics<'p>,
) -> Result<(Heap<'p>, Statics<'p>), AllocError>
    ensures { IfOk result
        (λ made. (made.0 ≡ empty_heap heap.now.program) × (made.1 ≡ statics.now)) }
{
    let fields = statics.copy(alloc)?;
    Ok((Heap::empty(alloc, heap.program())?, fields))
}

/// Returns copies of the held monitors and of the waiting threads.
fn copied_monitors(
    alloc: Global,
    monitors: &Monitors,
    waiters: &Waiters,
) -> Result<(Monitors, Waiters), AllocError>
    ensures { IfOk result (λ copies. (copies.0 ≡ monitors.now) × (copies.1 ≡ waiters.now)) }
{
    let copy = monitors.copy()?;
    Ok((copy, waiters.copy(alloc)?))
}

impl<'p> Parts<'p> {
    /// Copies all parts except the objects of the heap. The copy has none.
    pub(crate) fn copy_without_objects(&self) -> Result<Parts<'p>, AllocError>
        ensures { IfOk result (λ parts. parts ≡ without_objects self.now) }
    {
        let alloc = self.alloc;
        let arguments = Vec::from_slice(alloc, self.arguments.as_slice())?;
        let initialisations = Vec::from_slice(alloc, self.initialisations.as_slice())?;
        let output = Vec::from_slice(alloc, self.output.as_slice())?;
        let threads = copied_threads(alloc, self.threads.as_slice())?;
        let (monitors, waiters) = copied_monitors(alloc, &self.monitors, &self.waiters)?;
        let (heap, statics) = fields_without_objects(alloc, &self.heap, &self.statics)?;
        Ok(Parts {
            alloc,
            limits: self.limits,
            method: self.method,
            arguments,
            heap,
            statics,
            initialisations,
            threads,
            monitors,
            waiters,
            output,
            result: self.result,
        })
    }

    /// Puts a heap of the same program in place of the parts' own.
    pub(crate) fn with_heap(mut self, heap: Heap<'p>) -> Parts<'p>
        requires { heap.program ≡ self.program }
        ensures { result ≡ with_objects heap.entry self.entry }
    {
        drop(replace(&mut self.heap, heap));
        self
    }

    /// Copies the parts.
    pub fn copy(&self) -> Result<Parts<'p>, AllocError>
        ensures { IfOk result (λ parts. parts ≡ self.now) }
    {
        let parts = self.copy_without_objects()?;
        match self.heap.copy() {
            Ok(heap) => Ok(parts.with_heap(heap)),
            Err(error) => {
                drop(parts);
                Err(error)
            }
        }
    }

    /// Returns the program.
    pub fn program(&self) -> &'p Program
        ensures { result.now ≡ self.now.program }
    {
        self.heap.program()
    }

    /// Returns the index of the thread that was started by a Thread object.
    pub fn thread_of(&self, reference: u32) -> Option<usize>
        ensures { result ≡ thread_of self.now.state.threads reference }
    {
        self.threads
            .as_slice()
            .iter()
            .position(|thread| thread.is_of(reference))
    }

    /// Decides whether a thread waits and wasn't notified.
    pub fn is_waiter(&self, t: ThreadId) -> bool
        ensures { result ≡ is_waiter t self.now.state.waiters }
    {
        self.waiters.contains(t)
    }

    /// Returns the owner and the entry count of an object's monitor, or `None` if it isn't held.
    pub fn monitor(&self, reference: u32) -> Option<Hold>
        ensures { result ≡ monitor_at self.now.state.monitors reference }
    {
        self.monitors.hold(reference)
    }
}
