//! The machine (JVMS 2). From the opening state on, each choice of a thread is one turn, by the instruction table.
#![tactic(auto)]

mod applying;
mod fault;
mod limits;
mod local;
mod machine;
mod opening;
mod peek;
mod run;
mod running;
mod saved;
mod start;
mod state;
mod status;
mod turn;

pub use applying::Turn;
pub use exec_ref::classes::FieldName;
pub use fault::MachineFault;
pub use jvms_machine::machine::{Argument, Entry, Limits, Outcome, Status, ThreadId};
pub use jvms_machine::state::{Hold, Initialisation};
pub use machine::{Machine, admits};
pub use run::RunStop;
pub use saved::SavedMachine;
pub use state::FrameView;
pub use status::{is_bad, is_enabled};
