//! The events of each transaction as a linked chain.

ghost use Rattle.std.specs.Prelude.{◌≤◌, ◌<◌, ℕ, length, IfOk, slice_index};
ghost use Rattle.serial_order.specs.Chains.{AreChains};

use std::alloc::{AllocError, Global};

/// Linked chains of events. Events count from 0. The number of all events ends a chain, and is the first of an empty
/// one.
#[derive(Drop)]
pub struct Chains {
    /// The first event of each transaction.
    pub first: Vec<usize>,
    /// The next event of its transaction for each event.
    pub next: Vec<usize>,
}

impl Chains {
    /// Returns the chains of the events of these transactions. No transaction number exceeds `most`.
    pub fn new(alloc: Global, transactions: &[u64], most: usize) -> Result<Self, AllocError>
        requires below { (k : ℕ) → k < length transactions.now
            → slice_index transactions.now k ≤ most }
        requires room { most < 0x7fffffffffffffff }
        ensures { IfOk result
            (λ chains. AreChains transactions.now most chains.first.items chains.next.items) }
    {
        let events = transactions.len();
        let mut first = vec![in alloc; events; most + 1]?;
        let mut next = vec![in alloc; events; events]?;
        for event in (0..events).rev() {
            let transaction = transactions[event] as usize;
            next[event] = first[transaction];
            first[transaction] = event;
        }
        Ok(Chains { first, next })
    }
}
