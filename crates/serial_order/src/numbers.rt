//! Lists events transaction by transaction.

ghost use Rattle.std.specs.Prelude.{◌≡◌, ◌++◌, ℕ, ◌<◌, ◌≤◌, length, List, IfOk, OnOk, slice_index};
ghost use Rattle.serial_order.specs.Chains.{AreRising, IsChain};
ghost use Rattle.serial_order.specs.Serial.{AreSerialOf, HasItems};

use crate::chains::Chains;
use shared_data::items::Items;
use std::alloc::{AllocError, Global};

/// Returns the numbers of a trace's events, transaction by transaction in their order and ascending in each.
/// `transactions` has the transaction of each event, and `order` all transactions, both from 1.
pub fn serial(alloc: Global, transactions: &[u64], order: &[u64]) -> Result<Items<u64>, AllocError>
    requires { HasItems transactions.now order.now }
    ensures { IfOk result (AreSerialOf transactions.now order.now) }
{
    let chains = Chains::new(alloc, transactions, order.len())?;
    let mut numbers = Vec::with_capacity(alloc, transactions.len())?;
    for transaction in order {
        let first = chains.first[*transaction as usize];
        push_chain(&mut numbers, chains.next.as_slice(), first)?;
    }
    Ok(Items::from_vec(numbers))
}

/// Appends the numbers of a chain's events.
fn push_chain(numbers: &mut Vec<u64>, next: &[usize], first: usize) -> Result<(), AllocError>
    requires { AreRising next.now }
    ensures { OnOk result ((chain : List ℕ) → IsChain next.now first chain
        → numbers.new.items ≡ numbers.old.items ++ chain) }
{
    let mut event = first;
    while event < next.len() {
        numbers.push(event as u64 + 1)?;
        event = next[event];
    }
    Ok(())
}
