//! The inputs of the machine, and its answers.

use jvms_program::number::ClassNumber;
use shared_data::items::Items;

/// A thread's number. Thread 0 runs the entry.
pub type ThreadId = u32;

/// An argument of an entry.
#[derive(Clone, Copy, Debug, PartialEq, Eq)]
pub enum Argument {
    Int(i32),
    Long(i64),
}

/// The entry of a run: the method with which thread 0 begins.
#[derive(Debug, PartialEq, Eq, Drop)]
pub enum Entry {
    /// `main([Ljava/lang/String;)V` of the named class.
    Main {
        class: Items<u16>,
    },
    /// A static method with int and long arguments.
    Static {
        class: Items<u16>,
        name: Items<u16>,
        /// The text of the descriptor.
        descriptor: Items<u16>,
        arguments: Items<Argument>,
    },
}

/// The limits of a run.
#[derive(Clone, Copy, Debug, PartialEq, Eq)]
pub struct Limits {
    /// All references that are ever created: 4 to 16,777,216.
    pub objects: u32,
    /// All elements of all arrays: 0 to 268,435,456.
    pub elements: u32,
    /// All threads that are ever started, thread 0 included: 1 to 1,024.
    pub threads: u32,
    /// The frames of one thread: 1 to 65,536.
    pub frames: u32,
}

/// The thing for which a blocked thread waits: a monitor, an initialisation, the end of a thread, or a notification.
#[derive(Clone, Copy, Debug, PartialEq, Eq)]
pub enum BlockedOn {
    Monitor { reference: u32, owner: ThreadId },
    /// The initialisation of the class at this index of the program's list.
    Initialisation { class: ClassNumber, owner: ThreadId },
    Join { thread: ThreadId },
    /// A notification of the threads that wait for the object of this reference.
    Wait { reference: u32 },
}

/// The cause for which a turn can't be taken by the instruction table.
#[derive(Clone, Copy, Debug, PartialEq, Eq)]
pub enum BadCause {
    /// The pc is at no instruction.
    FellOff,
    /// The instruction, or the entry's descriptor, is outside the profile.
    OutOfProfile,
    /// Too few operands, or no room for the result.
    Depth,
    /// An operand or a local variable of another kind.
    Kind,
    /// The number of a local variable that isn't below max_locals, or more parameters than max_locals.
    Local,
}

/// The outcome of a choice of a thread.
#[derive(Clone, Copy, Debug, PartialEq, Eq)]
pub enum Outcome {
    /// The turn was taken, and nothing is pending after it.
    Ran,
    /// The turn was taken, and an exception is pending after it.
    Raised,
    /// The thread has ended. With `last` it ended in this turn.
    Ended { last: bool },
    Blocked { on: BlockedOn },
    NoThread,
    Bad { cause: BadCause },
}

/// The status of a machine.
#[derive(Clone, Copy, Debug, PartialEq, Eq)]
pub enum Status {
    Finished,
    Running,
    Stalled,
    Deadlocked,
}
