//! The title of a picture.

use crate::sketches::Sketch;
use accesses::thread_of;
use atom_graph::Checker;
use jvms_machine::trace::Item;
use report::is_event;
use shared_data::shared::Shared;
use std::alloc::{AllocError, Global};
use std::collections::BTreeSet;

/// Returns the number of threads of the events among items.
fn threads_among(alloc: Global, items: &[Shared<Item>]) -> Result<usize, AllocError> {
    let mut threads = BTreeSet::new(alloc);
    for item in items {
        let item = item.get();
        if is_event(item) {
            threads.insert(thread_of(item))?;
        }
    }
    Ok(threads.len())
}

/// Returns the title of a picture: the number of events and threads of the trace, and of transactions of its cycle, if
/// there is one. It needs no escapes in XML or DOT.
pub(crate) fn title_of(
    alloc: Global,
    checker: &Checker,
    sketch: &Sketch,
) -> Result<String, AllocError> {
    let (events, transactions) = (sketch.events, sketch.transactions);
    let threads = threads_among(alloc, checker.items())?;
    if transactions == 0 {
        return format!(in alloc; "{events} events, {threads} threads, atomic");
    }
    format!(in alloc; "{events} events, {threads} threads, cycle of {transactions} transactions")
}
