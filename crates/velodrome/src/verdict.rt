//! Verdicts on a trace.

use shared_data::items::Items;

/// The numbers of two conflicting events, from 1. The earlier event is first.
#[derive(Clone, Copy, Debug, PartialEq, Eq)]
pub struct ConflictingPair {
    pub earlier: u64,
    pub later: u64,
}

/// The verdict on a trace. Events and transactions are numbered from 1.
#[derive(Debug, PartialEq, Eq, Drop)]
pub enum Verdict {
    /// No cycle of edges exists. `order` has every transaction once, and no edge leads from a later one to an earlier
    /// one.
    Atomic {
        order: Items<u64>,
    },
    /// The first `first_at` events are the shortest prefix of the trace that has a cycle. `transactions` is such a
    /// cycle and begins with the transaction of event `first_at`. Each pair is an event of a transaction and a later
    /// event of the next one. The last pair leads to the first transaction.
    Cycle {
        first_at: u64,
        transactions: Items<u64>,
        pairs: Items<ConflictingPair>,
    },
}
