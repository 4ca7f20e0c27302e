//! Verifies the cycle that a checker shows of a trace.

use crate::events::{Event, conflict, event_of};
use velodrome::verdict::ConflictingPair;

/// A cycle, as a checker shows it.
#[derive(Clone, Copy)]
pub struct Shown<'a> {
    pub first_at: u64,
    pub transactions: &'a [u64],
    pub pairs: &'a [ConflictingPair],
}

/// Decides whether all transactions of a list are different.
fn are_different(transactions: &[u64]) -> bool {
    for (place, transaction) in transactions.iter().enumerate() {
        let transaction = *transaction;
        if transactions
            .iter()
            .take(place)
            .any(|other| *other == transaction)
        {
            return false;
        }
    }
    true
}

/// Decides whether a list begins with the transaction of event `number`.
fn begins_with(events: &[Event], number: u64, transactions: &[u64]) -> bool {
    match (event_of(events, number), transactions.first()) {
        (Some(event), Some(first)) => event.transaction == *first,
        _ => false,
    }
}

/// Decides whether a pair is an event of `from` and a later one of `to`, in conflict, among the first `most` events.
fn leads(events: &[Event], most: u64, pair: ConflictingPair, from: u64, to: u64) -> bool {
    match (event_of(events, pair.earlier), event_of(events, pair.later)) {
        (Some(earlier), Some(later)) => {
            earlier.number < later.number
                && later.number <= most
                && earlier.transaction == from
                && later.transaction == to
                && conflict(earlier, later)
        }
        _ => false,
    }
}

/// Returns the transaction after the one at a place. The first follows the last.
fn next(transactions: &[u64], place: usize) -> Option<u64> {
    match transactions.get(place.saturating_add(1)) {
        Some(next) => Some(*next),
        None => transactions.first().copied(),
    }
}

/// Decides whether the pair at a place leads from the transaction at this place to the next.
fn leads_on(events: &[Event], shown: Shown<'_>, place: usize, pair: ConflictingPair) -> bool {
    let from = shown.transactions.get(place).copied();
    match (from, next(shown.transactions, place)) {
        (Some(from), Some(to)) => leads(events, shown.first_at, pair, from, to),
        _ => false,
    }
}

/// Decides whether pairs lead from each transaction to the next, and from the last to the first.
fn leads_round(events: &[Event], shown: Shown<'_>) -> bool {
    for (place, pair) in shown.pairs.iter().enumerate() {
        if !leads_on(events, shown, place, *pair) {
            return false;
        }
    }
    shown.pairs.len() == shown.transactions.len()
}

/// Decides whether a cycle is right. It must have at least two different transactions, the first being that of event
/// `first_at`. Pairs must lead from each to the next, and from the last to the first.
pub fn is_shown(events: &[Event], shown: Shown<'_>) -> bool {
    shown.transactions.len() >= 2
        && are_different(shown.transactions)
        && begins_with(events, shown.first_at, shown.transactions)
        && leads_round(events, shown)
}
