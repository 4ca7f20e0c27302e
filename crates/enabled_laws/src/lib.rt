//! Turns that keep, disable or enable the other threads: tests of their decisions, and laws.
#![tactic(auto)]

pub mod laws;
mod quiet;

pub use quiet::{is_giving, is_quiet, is_taking};
