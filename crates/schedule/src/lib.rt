//! Schedules: which thread takes the next turn of a run.
#![tactic(auto)]

mod chooser;
mod fault;
pub mod laws;
mod list;
mod numbers;
mod ranked;
mod round_robin;
mod staying;
mod threads;
mod written;

pub use chooser::Chooser;
pub use fault::ScheduleFault;
pub use round_robin::Candidate;

#[cfg(test)]
mod tests;
