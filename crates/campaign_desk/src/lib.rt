//! The desk of a campaign: workers draw jobs and share a bound, by atomic steps on two words.
#![tactic(auto)]

mod desk;
mod fault;
mod knowledge;
pub mod laws;
mod seat;
mod steps;

pub use desk::Desk;
pub use fault::DeskFault;
pub use seat::{Claim, Seat};

#[cfg(test)]
mod tests;
