//! Explains runs: a cycle by its transactions and events, and a run that can't continue by what its threads wait for or
//! need.
#![tactic(auto)]

mod event_places;
mod event_turns;
mod judging;
mod places;
mod replay;
mod running;
mod stops;
mod throws;

pub use running::{ExplainedRun, run_explained};
