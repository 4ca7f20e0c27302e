//! Limits of the priorities that the schedule `pct:S:K:D:N` gives to threads: its depth D, and its number N of turns.
#![tactic(auto)]

mod depth;
mod span;

pub use depth::Depth;
pub use span::Span;
