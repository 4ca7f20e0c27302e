//! Returns a serial order of a trace's events when its transactions have an order (Velodrome, section 3).
#![tactic(auto)]

mod chains;
pub mod laws;
mod numbers;
pub mod transactions;

pub use numbers::serial;
