//! Labels of events and transactions in a picture.

use crate::rows::Row;
use accesses::thread_of;
use atom_graph::Checker;
use escapes::put_method;
use jvms_machine::machine::ThreadId;
use jvms_machine::trace::Item;
use jvms_program::key::MethodKey;
use shared_data::shared::Shared;
use std::alloc::{AllocError, Global};
use trace_text::put_line;

/// Returns the item at a place.
pub(crate) fn item_at(checker: &Checker, place: usize) -> Option<&Item> {
    Some(checker.items().get(place)?.get())
}

/// Returns the line of the item at a place, without its end.
pub(crate) fn item_label(
    alloc: Global,
    checker: &Checker,
    place: usize,
) -> Result<String, AllocError> {
    let mut label = String::new(alloc);
    if let Some(item) = item_at(checker, place) {
        put_line(&mut label, item)?;
    }
    let _ = label.pop();
    Ok(label)
}

/// Returns the number of a row's event, and its line.
pub(crate) fn event_label(
    alloc: Global,
    checker: &Checker,
    row: &Row,
) -> Result<String, AllocError> {
    let line = item_label(alloc, checker, row.place)?;
    format!(in alloc; "{event} {line}", event = row.event)
}

/// Appends or removes an open method of a thread, according to an item.
fn follow<'a>(
    methods: &mut Vec<&'a MethodKey>,
    item: &'a Item,
    thread: ThreadId,
) -> Result<(), AllocError> {
    if thread_of(item) != thread {
        return Ok(());
    }
    match item {
        Item::Enter { method, .. } => Ok(methods.push(method)?),
        Item::Exit { .. } => {
            let _ = methods.pop();
            Ok(())
        }
        _ => Ok(()),
    }
}

/// Returns the methods that a thread has open after items, the innermost last.
fn open_methods(
    alloc: Global,
    items: &[Shared<Item>],
    thread: ThreadId,
) -> Result<Vec<&MethodKey>, AllocError> {
    let mut methods = Vec::new(alloc);
    for item in items {
        follow(&mut methods, item.get(), thread)?;
    }
    Ok(methods)
}

/// Returns the method that names the transaction whose first event is at a place: the outermost atomic one that is
/// open, or the innermost if none is atomic.
fn naming_method<'a>(
    alloc: Global,
    checker: &'a Checker,
    place: usize,
) -> Result<Option<&'a MethodKey>, AllocError> {
    let Some(item) = item_at(checker, place) else {
        return Ok(None);
    };
    let before = checker.items().get(..place).unwrap_or(&[]);
    let methods = open_methods(alloc, before, thread_of(item))?;
    for method in methods.as_slice() {
        if checker.is_atomic(*method) {
            return Ok(Some(*method));
        }
    }
    Ok(methods.as_slice().last().copied())
}

/// Returns the number of a transaction, and the method that names it. Its first event is at `place`.
pub(crate) fn transaction_label(
    alloc: Global,
    checker: &Checker,
    transaction: u64,
    place: usize,
) -> Result<String, AllocError> {
    let mut label = format!(in alloc; "{transaction}")?;
    if let Some(method) = naming_method(alloc, checker, place)? {
        label.push_str(" ")?;
        put_method(&mut label, method)?;
    }
    Ok(label)
}
