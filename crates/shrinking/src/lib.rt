//! Shrinking: leaves out departures of a schedule whose run fails, as long as it fails in the same way.
#![tactic(auto)]

mod failure;
pub mod laws;
mod naming;
mod parts;
mod search;
mod shrunk;

pub use departures::Departure;
pub use explore_jobs::{Fate, Plan};
pub use failure::Failure;
pub use naming::departures_of;
pub use runs;
pub use search::shrink;
pub use shrunk::Shrunk;
