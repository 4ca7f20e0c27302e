//! Calls and returns, native methods, the first calls of threads, class initialisation and monitors (JVMS 2.6, 2.11,
//! 5.5): the decision on each turn, with nothing changed, and the application of its action to the parts of a machine.
#![tactic(auto)]

mod applying;
mod calls;
mod initialisation;
mod locking;
mod natives;
mod returns;
mod threads;
mod waiting;

pub use applying::calls::{call, end, enter, return_below};
pub use applying::initialisation::{begin, finish, initialise, mark};
pub use calls::fast::{PlainCall, fast_call};
pub use calls::first_call_decision;
pub use calls::invoke::invoke_decision;
pub use initialisation::initialisation_decision;
pub use locking::fast::{fast_monitor_enter, fast_monitor_exit};
pub use locking::{monitor_enter_decision, monitor_exit_decision};
pub use machine_parts;
pub use machine_parts::{heap, machine_thread, program};
pub use returns::fast::{PlainReturn, fast_return};
pub use returns::method_return_decision;
pub use waiting::{retake, wait, waiting_decision};
