//! Proves that the items of a run may be fed to a checker of atomicity (Velodrome, section 3).
#![tactic(auto)]

pub mod laws;
