//! Laws about what an exploration of a program covers.
#![tactic(auto)]

pub mod laws;

pub use schedule;
