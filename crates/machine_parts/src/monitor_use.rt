//! Decisions on entering and leaving monitors (JVMS 2.11.10).

ghost use Rattle.std.specs.Prelude.{◌≡◌, Option, Some, drop};
ghost use Rattle.jvms_machine.specs.declared.action.Lock.{Lock as Locked};
ghost use Rattle.jvms_machine.specs.declared.action.Lock.TheVariants as lock;
ghost use Rattle.jvms_machine.specs.declared.action.MonitorUse.{MonitorUse as Used};
ghost use Rattle.jvms_machine.specs.Decisions.{TurnDecision};
ghost use Rattle.jvms_machine.specs.Heap.{class_name_at};
ghost use Rattle.jvms_machine.specs.Monitors.{monitor_entry, monitor_entry_by_hold, monitor_exit, class_locking, call_locking, object_locking, frame_unlocking, fails_to_unlock as fails};
ghost use Rattle.jvms_machine.specs.State.{class_reference};
ghost use Rattle.machine_parts.specs.Before.{turn_by_entry, turn_by_exit, turn_by_lock};
ghost use Rattle.machine_parts.specs.Decided.{decision_value};

use crate::decision::{Decided, never_seen};
use crate::parts::Parts;
use jvms_machine::action::{Action, Decision, Lock, MonitorUse};
use jvms_machine::machine::{BlockedOn, Outcome, ThreadId};
use jvms_machine::state::Hold;
use jvms_program::number::{ClassNumber, MethodNumber};
use jvms_program::program::Method;
use jvms_program::thrown::Thrown;
use machine_thread::Thread;
use machine_thread::frames::Frame;

/// The decision on entering a monitor.
#[derive(Clone, Copy)]
pub enum Entering<'p> {
    Enters(MonitorUse),
    /// The turn does this instead.
    Stops(Decided<'p>),
}

/// The decision on what a call locks.
#[derive(Clone, Copy)]
pub enum Locking<'p> {
    Locks(Lock),
    /// The turn does this instead.
    Stops(Decided<'p>),
}

/// The decision on how a call leaves the monitor of its frame.
#[derive(Clone, Copy)]
pub enum Unlocking {
    Leaves(Option<MonitorUse>),
    /// The thread isn't the owner of the monitor.
    Fails,
}

impl<'p> Parts<'p> {
    /// Decides the entry of a held monitor. Its owner enters it again, and any other thread blocks. Throws
    /// `OutOfMemoryError` if the entry count is at its maximum.
    fn monitor_entry_by_hold(
        &self,
        t: ThreadId,
        thread: &Thread,
        reference: u32,
        hold: Hold,
    ) -> Entering<'p>
        ensures { (make : Used → TurnDecision) → turn_by_entry make result
            ≡ monitor_entry_by_hold self.now.limits self.now.state t thread.now reference
            (Some hold) make }
    {
        if hold.owner != t {
            let on = BlockedOn::Monitor {
                reference,
                owner: hold.owner,
            };
            return Entering::Stops(Decision::Stays(Outcome::Blocked { on }));
        }
        if hold.count == u32::MAX {
            return Entering::Stops(self.throws(thread, Thrown::OutOfMemoryError));
        }
        Entering::Enters(MonitorUse {
            reference,
            outermost: false,
        })
    }

    /// Decides the entry of an object's monitor.
    pub fn monitor_entry(&self, t: ThreadId, thread: &Thread, reference: u32) -> Entering<'p>
        ensures { (make : Used → TurnDecision) → turn_by_entry make result
            ≡ monitor_entry self.now.limits self.now.state t thread.now reference make }
    {
        match self.monitor(reference) {
            None => Entering::Enters(MonitorUse {
                reference,
                outermost: true,
            }),
            Some(hold) => self.monitor_entry_by_hold(t, thread, reference, hold),
        }
    }

    /// Returns how a thread leaves a monitor, or `None` if it isn't the owner.
    pub fn monitor_exit(&self, t: ThreadId, reference: u32) -> Option<MonitorUse>
        ensures { result ≡ monitor_exit self.now.state t reference }
    {
        let hold = self.monitor(reference)?;
        if hold.owner != t {
            return None;
        }
        Some(MonitorUse {
            reference,
            outermost: hold.count == 1,
        })
    }

    /// Decides the locking of an existing object by a call.
    fn object_locking(&self, t: ThreadId, thread: &Thread, reference: u32) -> Locking<'p>
        ensures { (make : Locked → TurnDecision) → turn_by_lock make result
            ≡ object_locking self.now.limits self.now.state t thread.now (Some reference) make }
    {
        match self.monitor_entry(t, thread, reference) {
            Entering::Enters(monitor) => Locking::Locks(Lock::Monitor(monitor)),
            Entering::Stops(decision) => Locking::Stops(decision),
        }
    }

    /// Decides the locking of a class's object by a call. The object is created at its first use.
    fn class_locking(
        &self,
        t: ThreadId,
        thread: &Thread,
        class: ClassNumber,
        existing: Option<u32>,
    ) -> Locking<'p>
        ensures { (make : Locked → TurnDecision) → turn_by_lock make result
            ≡ class_locking self.now.limits self.now.state t thread.now class existing make }
    {
        match existing {
            Some(reference) => self.object_locking(t, thread, reference),
            None => {
                if self.has_room() {
                    let reference = self.heap.count() as u32 + 1;
                    Locking::Locks(Lock::NewClass { class, reference })
                } else {
                    Locking::Stops(self.throws(thread, Thrown::OutOfMemoryError))
                }
            }
        }
    }

    /// Returns the object of the class of a number, if it exists.
    fn class_object(&self, class: ClassNumber) -> Option<u32>
        ensures { result
            ≡ class_reference self.now.state.heap (class_name_at self.now.program class) }
    {
        match self.program().class(class) {
            None => self.heap.class_reference(&[]),
            Some(c) => self.heap.class_reference(c.name.as_slice()),
        }
    }

    /// Decides what a call of a method locks: the receiver or the class object of a synchronized method, else nothing.
    pub fn call_locking(
        &self,
        t: ThreadId,
        thread: &Thread,
        n: MethodNumber,
        method: &Method,
        receiver: Option<u32>,
    ) -> Locking<'p>
        ensures { (make : Locked → TurnDecision)
            → turn_by_lock make result ≡ call_locking self.now.program self.now.limits
            self.now.state t thread.now n method.now receiver make }
    {
        if !method.flags.is_synchronized {
            return Locking::Locks(Lock::Nothing);
        }
        if method.flags.is_static {
            return self.class_locking(t, thread, n.class, self.class_object(n.class));
        }
        match receiver {
            None => Locking::Stops(never_seen()),
            Some(reference) => self.object_locking(t, thread, reference),
        }
    }

    /// Decides how a call leaves the monitor of its frame, if it has one.
    pub fn frame_unlocking(&self, t: ThreadId, frame: &Frame) -> Unlocking
        ensures { (fails : TurnDecision) (make : Option Used → TurnDecision)
            → turn_by_exit fails make result
            ≡ frame_unlocking self.now.state t frame.now.monitor fails make }
    {
        match frame.monitor() {
            None => Unlocking::Leaves(None),
            Some(reference) => match self.monitor_exit(t, reference) {
                None => Unlocking::Fails,
                Some(monitor) => Unlocking::Leaves(Some(monitor)),
            },
        }
    }

    /// Returns the decision that the top call fails to leave its monitor, with an `IllegalMonitorStateException`.
    pub fn fails_to_unlock(&self, thread: &Thread, frame: &Frame) -> Decided<'p>
        ensures { decision_value result
            ≡ fails self.now.limits self.now.state frame.now.method (drop 1 thread.now.frames) }
    {
        Decision::Applies(Action::FailsToUnlock {
            method: frame.method(),
            exception: self.exception_of(Thrown::IllegalMonitorStateException),
            last: thread.height() <= 1,
        })
    }
}
