//! Jobs of an exploration: schedules by their departures from a default, how their runs end, and their children.
#![tactic(auto)]

mod children;
mod fate;
mod plan;
mod run;
mod staying;

pub use campaign_jobs;
pub use campaign_jobs::program_runs;
pub use campaign_jobs::runs::Ending;
pub use children::{added_departures, default_of};
pub use departures::Departure;
pub use fate::Fate;
pub use plan::Plan;
pub use run::{job_ending, run_job};
