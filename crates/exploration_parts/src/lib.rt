//! Parts of an exploration: each of n parts has every nth of the schedules with one departure, and those below them.
#![tactic(auto)]

pub mod laws;
mod part;

pub use part::Part;
