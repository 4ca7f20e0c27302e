//! The events of a trace with their transactions, each computed from the steps alone.

use crate::making::{Atomic, RandomTrace};
use crate::steps::{Action, Step, open_behind};
use std::alloc::{AllocError, Global};

/// An event of a trace.
#[derive(Clone, Copy)]
pub struct Event {
    /// The event's number, from 1.
    pub number: u64,
    /// The number of its transaction, from 1.
    pub transaction: u64,
    pub step: Step,
    /// The place of the step that its transaction begins with: the entry of the outermost atomic method around it, or
    /// else its own step.
    first: usize,
}

/// Returns the place of the step that the transaction of a thread's step begins with.
fn first_of(
    alloc: Global,
    atomic: Atomic,
    steps: &[Step],
    place: usize,
    thread: u32,
) -> Result<usize, AllocError> {
    let open = open_behind(alloc, steps, place, thread)?;
    let outermost = open.iter().find(|open| atomic.is_of(open.method));
    Ok(outermost.map_or(place, |open| open.place))
}

/// Returns the number of transactions that have begun.
fn begun(events: &[Event]) -> u64 {
    events
        .iter()
        .map(|event| event.transaction)
        .max()
        .unwrap_or(0)
}

/// Returns the number of the transaction that begins with a step: that of earlier events in it, or else the next.
fn transaction_of(events: &[Event], first: usize) -> u64 {
    match events.iter().find(|event| event.first == first) {
        Some(event) => event.transaction,
        None => begun(events).saturating_add(1),
    }
}

/// Returns the events of a trace, in order.
pub fn events_of(alloc: Global, trace: &RandomTrace) -> Result<Vec<Event>, AllocError> {
    let steps = trace.steps.as_slice();
    let mut events: Vec<Event> = Vec::new(alloc);
    for (place, step) in steps.iter().enumerate() {
        if step.action.is_event() {
            let first = first_of(alloc, trace.atomic, steps, place, step.thread)?;
            let number = (events.len() as u64).saturating_add(1);
            let transaction = transaction_of(events.as_slice(), first);
            events.push(Event {
                number,
                transaction,
                step: *step,
                first,
            })?;
        }
    }
    Ok(events)
}

/// Returns event `number`, if there is one.
pub fn event_of(events: &[Event], number: u64) -> Option<Event> {
    events.iter().find(|event| event.number == number).copied()
}

fn are_on_one_monitor(a: Action, b: Action) -> bool {
    match (a.monitor(), b.monitor()) {
        (Some(a), Some(b)) => a == b,
        _ => false,
    }
}

fn are_on_one_variable(a: Action, b: Action) -> bool {
    match (a.variable(), b.variable()) {
        (Some(a), Some(b)) => a == b,
        _ => false,
    }
}

/// Decides whether two events conflict. They do if they belong to one thread or use one monitor. They do if they use
/// one variable and one of them writes it, or if one forks or joins the other's thread.
pub fn conflict(a: Event, b: Event) -> bool {
    let (t, a) = (a.step.thread, a.step.action);
    let (u, b) = (b.step.thread, b.step.action);
    t == u
        || are_on_one_monitor(a, b)
        || (are_on_one_variable(a, b) && (a.is_write() || b.is_write()))
        || a.touches(u)
        || b.touches(t)
}
