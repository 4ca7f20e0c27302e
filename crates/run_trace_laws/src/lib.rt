//! Proves that the text of a run's trace is read as the same items.
#![tactic(auto)]

pub mod laws;
