//! The jobs of a campaign: each runs a program under its own random schedule, and reports whether the run is atomic.
#![tactic(auto)]

mod choosing;
pub mod laws;
mod plan;
mod report;
mod result;
mod run;

pub use choosing::Choosing;
pub use plan::Plan;
pub use program_runs;
pub use program_runs::{machine, runs, schedule};
pub use report::Report;
pub use result::{Atomicity, JobResult};
pub use run::{atomicity_of, run_job, serial_of};
