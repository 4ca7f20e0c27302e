//! Leaves out departures of a schedule whose run fails, on the program of class files and sources, and writes what is left.
#![tactic(auto)]

mod fault;
mod naming;
mod running;
mod shrunk_run;
mod text;
mod writing;

pub use exploration_text::exploring::{FailingRun, Plan};
pub use fault::ShrinkFault;
pub use shrinking::Failure;
pub use shrunk_run::ShrunkRun;
pub use text::shrunk_text;
pub use writing::write_shrunk;
