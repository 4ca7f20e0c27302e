//! The items of a trace: events and marks, in the order of their turns.

use crate::machine::ThreadId;
use jvms_program::key::{FieldKey, MethodKey};

/// The variable of a read or a write.
#[derive(Debug, PartialEq, Eq, Drop)]
pub enum Variable {
    Instance { reference: u32, field: FieldKey },
    Static { field: FieldKey },
    Element { reference: u32, index: u32 },
}

/// An event or a mark of a thread.
#[derive(Debug, PartialEq, Eq, Drop)]
pub enum Item {
    Read {
        thread: ThreadId,
        variable: Variable,
    },
    Write {
        thread: ThreadId,
        variable: Variable,
    },
    /// The outermost entry of an object's monitor.
    Acquire {
        thread: ThreadId,
        reference: u32,
    },
    /// The exit that frees an object's monitor.
    Release {
        thread: ThreadId,
        reference: u32,
    },
    Fork {
        thread: ThreadId,
        started: ThreadId,
    },
    Join {
        thread: ThreadId,
        ended: ThreadId,
    },
    Enter {
        thread: ThreadId,
        method: MethodKey,
    },
    Exit {
        thread: ThreadId,
        method: MethodKey,
    },
}
