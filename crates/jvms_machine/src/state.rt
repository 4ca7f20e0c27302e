//! Parts of the machine's state (JVMS 2.5, 2.6, 5.5).

use crate::machine::ThreadId;
use jvms_program::number::ClassNumber;

/// The state of a class's initialisation (JVMS 5.5).
#[derive(Clone, Copy, Debug, PartialEq, Eq)]
pub enum Initialisation {
    NotBegun,
    InProgress { thread: ThreadId },
    Done,
    Erroneous,
}

/// A held monitor: its owner, and its entry count (JVMS 2.11.10).
#[derive(Clone, Copy, Debug, PartialEq, Eq)]
pub struct Hold {
    pub owner: ThreadId,
    pub count: u32,
}

/// A thread's wait (JLS 17.2): the object for which it waits, and the entry count of the object's monitor before the
/// wait, from 1.
#[derive(Clone, Copy, Debug, PartialEq, Eq)]
pub struct Wait {
    pub reference: u32,
    pub count: u32,
}

/// A frame on a thread's stack (JVMS 2.5.2): the frame `F` of a call, or the initialisation of a class and whether its
/// `<clinit>` was called.
#[derive(Drop)]
pub enum StackFrame<F> {
    Call(F),
    Initialisation { class: ClassNumber, called: bool },
}
