//! Explorations: all schedules of a program with a number of departures from a default, level by level.
#![tactic(auto)]

mod answer;
mod batch;
mod exploration;
mod growth;
mod jobs;
pub mod laws;
mod level;

pub use answer::{Answer, Bounds, FailingRun, LevelRuns, Observer, Team, explore};
pub use departures::Departure;
pub use exploration::Exploration;
pub use exploration_parts::Part;
pub use explore_jobs;
pub use explore_jobs::{Fate, Plan};
pub use jobs::Jobs;
pub use level::Level;
pub use program_runs::runs::Uncaught;
