//! The decision on a turn, made with nothing changed, and the action that is then applied.

use crate::machine::{BadCause, Outcome, ThreadId};
use crate::state::Wait;
use crate::value::Value;
use jvms_file::insn::StackForm;
use jvms_program::number::{ClassNumber, FieldNumber, MethodNumber};
use jvms_program::thrown::Thrown;
use std::alloc::AllocError;

/// The action of an instruction that touches its frame alone (JVMS 6.5). Operands are removed from the top. `takes`
/// counts slots, and a long has two.
#[derive(Clone, Copy, PartialEq, Eq)]
pub enum FrameAction {
    /// Removes `takes` operands, pushes a value, and moves to the next instruction.
    Push { takes: u8, value: Value },
    /// Removes `takes` operands, stores a value in a local variable, and moves to the next instruction.
    Store { takes: u8, local: u16, value: Value },
    /// Removes `takes` operands, and sets the pc.
    Jump { takes: u16, target: usize },
    /// Rearranges the topmost operands, and moves to the next instruction.
    Rearrange(StackForm),
    /// Pushes the return address of the next instruction, and sets the pc.
    Subroutine { target: usize },
}

/// The decision on an instruction by its frame alone.
#[derive(Clone, Copy, PartialEq, Eq)]
pub enum FrameDecision {
    Does(FrameAction),
    /// Throws an exception of this class. The frame stays as it is.
    Throws(Thrown),
    /// The turn can't be taken.
    Stops(BadCause),
    /// The frame alone doesn't decide. The instruction touches more than it, as a return does.
    Beyond,
}

/// A thrown exception (JVMS 2.10).
#[derive(Clone, Copy, Debug, PartialEq, Eq)]
pub enum Exception {
    /// Creates an object of this class, with a null message.
    New(Thrown),
    /// Throws the existing object of this reference.
    Existing { reference: u32 },
}

/// A new object on the heap (JVMS 2.4, 2.7). `T` is the type of texts.
#[derive(Copy)]
pub enum NewObject<T> {
    /// An instance of a class.
    Instance { class: ClassNumber },
    /// An array of a class with `length` elements.
    Array { class: T, length: u32 },
    /// An array of a class and the arrays in it, whose lengths are the topmost `dimensions` operands.
    Arrays { class: T, dimensions: u8 },
    /// The string of these UTF-16 code units.
    Text { units: T },
    /// The object of the named class.
    ClassObject { name: T },
}

impl<T: Copy> Clone for NewObject<T> {
    fn clone(&self) -> Result<Self, AllocError> {
        Ok(*self)
    }
}

/// The printed value, without the end of its line.
#[derive(Clone, Copy, Debug, PartialEq, Eq)]
pub enum Printed {
    Nothing,
    Int(i32),
    Long(i64),
    Null,
    /// The string of this reference.
    Text { reference: u32 },
}

/// The entry or exit of a monitor (JVMS 2.11.10).
#[derive(Clone, Copy, Debug, PartialEq, Eq)]
pub struct MonitorUse {
    /// The object's reference.
    pub reference: u32,
    /// Set if the monitor is free before the entry, or after the exit.
    pub outermost: bool,
}

/// The monitor that a call enters with its frame (JVMS 2.11.10).
#[derive(Clone, Copy, Debug, PartialEq, Eq)]
pub enum Lock {
    /// No monitor. The method isn't synchronized.
    Nothing,
    /// The monitor of an existing object.
    Monitor(MonitorUse),
    /// The monitor of the object of a class, which is created with this reference.
    NewClass { class: ClassNumber, reference: u32 },
}

/// The effect of an instruction beside the action on its frame.
#[derive(Copy)]
pub enum Effect<T> {
    Nothing,
    GetField {
        reference: u32,
        field: FieldNumber,
    },
    PutField {
        reference: u32,
        field: FieldNumber,
        value: Value,
    },
    GetStatic {
        field: FieldNumber,
    },
    PutStatic {
        field: FieldNumber,
        value: Value,
    },
    LoadElement {
        reference: u32,
        index: u32,
    },
    StoreElement {
        reference: u32,
        index: u32,
        value: Value,
    },
    Creates(NewObject<T>),
    Prints {
        what: Printed,
        ends_line: bool,
    },
    /// Enters a monitor.
    Locks(MonitorUse),
    /// Leaves a monitor.
    Unlocks(MonitorUse),
    /// Starts the thread of an object, with this number.
    Starts {
        reference: u32,
        thread: ThreadId,
    },
    /// Joins this thread, which has ended.
    Joins {
        thread: ThreadId,
    },
    /// Notifies the thread that has waited longest for an object, or all that wait for it.
    Notifies {
        reference: u32,
        all: bool,
    },
}

impl<T: Copy> Clone for Effect<T> {
    fn clone(&self) -> Result<Self, AllocError> {
        Ok(*self)
    }
}

/// A change of the state by a turn, with all that its application needs. `C` is the type of a method's code, and `T`
/// that of texts.
#[derive(Copy)]
pub enum Action<C, T> {
    /// The top call continues by an instruction that touches its frame alone.
    Goes(FrameAction),
    /// The top call continues by an instruction that reaches beyond its frame.
    Reaches(Effect<T>, FrameAction),
    /// Begins the initialisation of a class, and pushes its frame.
    Begins {
        class: ClassNumber,
    },
    /// Finishes the initialisation of a class, and pops its frame.
    Finishes {
        class: ClassNumber,
    },
    /// Makes the first call of the thread, of this method with this code.
    Enters {
        method: MethodNumber,
        code: C,
        lock: Lock,
    },
    /// Returns from the first call, of this method, and ends the thread.
    Ends {
        method: MethodNumber,
        result: Option<Value>,
        unlock: Option<MonitorUse>,
    },
    /// Calls a method with this code. Its arguments are the topmost `takes` operands of the top call.
    Calls {
        method: MethodNumber,
        code: C,
        takes: u16,
        lock: Lock,
    },
    /// Returns from the top call, of this method, to the frame below.
    Returns {
        method: MethodNumber,
        result: Option<Value>,
        unlock: Option<MonitorUse>,
    },
    /// Calls the `<clinit>` with this code, of the class whose initialisation is on top.
    Initialises {
        method: MethodNumber,
        code: C,
    },
    /// Removes the object of this reference from the operands of the top call, and makes it pending.
    Throws {
        reference: u32,
    },
    /// Enters a handler of the top call with the pending object.
    Catches {
        reference: u32,
        target: usize,
    },
    /// Pops the top call, of this method, because of the pending exception. The thread ends with its last frame.
    Unwinds {
        method: MethodNumber,
        last: bool,
        unlock: Option<MonitorUse>,
    },
    /// Pops the top call, of this method, by its return or an exception, though its thread doesn't own the monitor that
    /// it would leave. This exception is then pending. The thread ends with its last frame.
    FailsToUnlock {
        method: MethodNumber,
        exception: Exception,
        last: bool,
    },
    /// Pops the initialisation of a class because of the pending exception. The class is then erroneous, and this
    /// exception is pending. The thread ends with its last frame.
    FailsInitialisation {
        class: ClassNumber,
        exception: Exception,
        last: bool,
    },
    /// Frees a monitor with this entry count, for the top call, of `wait`. The thread then waits.
    Waits(Wait),
    /// Gives the monitor back to a notified thread, and completes its call of `wait`.
    Retakes(Wait),
    /// Makes an exception pending.
    Raises(Exception),
    /// Ends the thread, whose first call throws an exception.
    Fails(Exception),
}

impl<C: Copy, T: Copy> Clone for Action<C, T> {
    fn clone(&self) -> Result<Self, AllocError> {
        Ok(*self)
    }
}

/// The decision on a turn.
#[derive(Copy)]
pub enum Decision<C, T> {
    /// The turn isn't taken, and nothing changes.
    Stays(Outcome),
    Applies(Action<C, T>),
}

impl<C: Copy, T: Copy> Clone for Decision<C, T> {
    fn clone(&self) -> Result<Self, AllocError> {
        Ok(*self)
    }
}
