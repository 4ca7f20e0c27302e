//! The items of a turn are determined by the states before and after it.
#![tactic(auto)]

pub mod laws;
