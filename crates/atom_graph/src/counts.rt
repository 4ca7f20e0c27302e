//! Counts of what was fed.

/// The number of events and of transactions of a trace. A transaction counts from its first event on.
#[derive(Clone, Copy, Debug, PartialEq, Eq)]
pub struct Counts {
    pub events: u64,
    pub transactions: u64,
}
