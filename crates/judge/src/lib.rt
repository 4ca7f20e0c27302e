//! Runs a program of class files and sources by a chooser's choices, and judges the run.
#![tactic(auto)]

mod fault;
mod judging;
mod reading;
mod running;
mod verdicts;

pub use fault::JudgeFault;
pub use judging::{Judged, judge};
pub use program_runs;
pub use reading::{classes_of, program_of};
pub use running::{RunSummary, run};
