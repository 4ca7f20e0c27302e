//! The checker of atomicity. It decides whether the transactions of a trace have a cycle, and finds the first event
//! that closes one (Velodrome, PLDI 2008).
#![tactic(auto)]

mod checker;
mod copies;
mod counts;
mod fault;
mod found;
mod item_cache;
mod reduced;
mod stay;
mod stored_trace;
mod watch;

pub use checker::Checker;
pub use counts::Counts;
pub use fault::FeedFault;
