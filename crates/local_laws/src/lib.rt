//! Local turns, which touch their own thread alone: tests of their decisions, and laws about turns beside a change of
//! another thread.
#![tactic(auto)]

pub mod laws;
mod local;

pub use local::{calls_or_returns, is_local};
