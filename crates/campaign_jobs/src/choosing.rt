//! How the jobs of a campaign choose.

use priority_limits::{Depth, Span};

/// How the jobs of a campaign choose the thread of each turn. Each job has random words of its own.
#[derive(Clone, Copy)]
pub enum Choosing {
    /// At each turn a random word names an enabled thread: the schedule `seed:S:K`.
    Random,
    /// Random priorities name it, which change after some of the first turns: the schedule `pct:S:K:D:N`.
    Priorities { depth: Depth, turns: Span },
}
