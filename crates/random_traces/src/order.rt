//! Verifies what a checker shows of an atomic trace: an order of its transactions, and one of its events.

use crate::events::{Event, conflict, event_of};
use crate::steps::{Action, Variable};
use std::alloc::{AllocError, Global};

/// Decides whether a list has the numbers from 1 to `last`, each once.
fn are_numbers_to(last: u64, numbers: &[u64]) -> bool {
    for number in 1..=last {
        if !numbers.contains(&number) {
            return false;
        }
    }
    numbers.len() as u64 == last
}

/// Returns the place of a transaction in an order.
fn place_of(order: &[u64], transaction: u64) -> usize {
    order
        .iter()
        .position(|other| *other == transaction)
        .unwrap_or(usize::MAX)
}

/// Decides whether an order of transactions is consistent with two events in their order.
fn leads_on(order: &[u64], from: Event, to: Event) -> bool {
    from.transaction == to.transaction
        || !conflict(from, to)
        || place_of(order, from.transaction) < place_of(order, to.transaction)
}

/// Decides whether a list has all transactions, each once, with no edge from a later to an earlier one.
pub fn is_order(events: &[Event], transactions: u64, order: &[u64]) -> bool {
    if !are_numbers_to(transactions, order) {
        return false;
    }
    for (place, to) in events.iter().enumerate() {
        for from in events.iter().take(place) {
            if !leads_on(order, *from, *to) {
                return false;
            }
        }
    }
    true
}

/// Returns the events in the order of these numbers.
fn in_order(alloc: Global, events: &[Event], numbers: &[u64]) -> Result<Vec<Event>, AllocError> {
    let mut serial = Vec::new(alloc);
    for number in numbers {
        if let Some(event) = event_of(events, *number) {
            serial.push(event)?;
        }
    }
    Ok(serial)
}

/// Decides whether no event before this place has a greater number than this event and conflicts with it.
fn keeps_conflicts(serial: &[Event], place: usize, event: Event) -> bool {
    serial.iter().take(place).all(|before| before.number < event.number
        || !conflict(*before, event))
}

/// Decides whether an event directly follows one of its transaction, or is the first of it.
fn goes_on(serial: &[Event], place: usize, event: Event) -> bool {
    let transaction = event.transaction;
    let before = serial.iter().take(place).last();
    let is_behind_its_own = before.is_some_and(|before| before.transaction == transaction);
    is_behind_its_own
        || serial
            .iter()
            .take(place)
            .all(|before| before.transaction != transaction)
}

/// Returns the number of the last write of a variable among the first `count` events.
fn last_write(events: &[Event], count: usize, variable: Variable) -> Option<u64> {
    let mut last = None;
    for event in events.iter().take(count) {
        if event.step.action.is_write_of(variable) {
            last = Some(event.number);
        }
    }
    last
}

/// Decides whether a read has the same last write before it as in the trace, or none in both.
fn reads_the_same(events: &[Event], serial: &[Event], place: usize, event: Event) -> bool {
    match event.step.action {
        Action::Read(variable) => {
            let before = event.number.saturating_sub(1) as usize;
            let wanted = last_write(events, before, variable);
            let given = last_write(serial, place, variable);
            given == wanted
        }
        _ => true,
    }
}

/// Decides whether the numbers are a serial order. They must name each event once and keep the order of each
/// conflicting pair. Each transaction must be in one piece, and each read must have the same last write as in the
/// trace.
pub fn is_serial(alloc: Global, events: &[Event], numbers: &[u64]) -> Result<bool, AllocError> {
    if !are_numbers_to(events.len() as u64, numbers) {
        return Ok(false);
    }
    let ordered = in_order(alloc, events, numbers)?;
    let serial = ordered.as_slice();
    for (place, event) in serial.iter().enumerate() {
        let stands = keeps_conflicts(serial, place, *event) && goes_on(serial, place, *event);
        if !stands || !reads_the_same(events, serial, place, *event) {
            return Ok(false);
        }
    }
    Ok(true)
}
