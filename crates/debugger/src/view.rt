//! The views that commands return.

use debugger_commands::Breakpoint;
use jvms_machine::machine::ThreadId;

/// The part of its session that a command shows.
#[derive(Clone, Copy, Debug, PartialEq, Eq)]
pub enum View {
    /// The position, the status of the machine there, and the outcome of the last choice.
    Position,
    /// A breakpoint that was added.
    Added(Breakpoint),
    /// The number of a breakpoint that was removed.
    Removed(u32),
    /// Each thread.
    Threads,
    /// The frames of a thread.
    Frames(ThreadId),
    /// The object with this reference.
    Object(u32),
    /// The class with this number.
    Class(usize),
    /// The trace up to the position.
    Trace,
    /// The output up to the position.
    Output,
}
