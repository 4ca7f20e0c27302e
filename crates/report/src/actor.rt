//! The methods that a thread has open.

ghost use Rattle.std.specs.Prelude.{◌≡◌, List, IfOk, OnOk, length, map, option_copied, reverse, slice_get, take};
ghost use Rattle.std.specs.List.{find};
ghost use Rattle.std.specs.Option.{option_map};
ghost use Rattle.velodrome.specs.Specification.{Specification, is_atomic};
ghost use Rattle.velodrome.specs.Transactions.{TraceState, state_after_item};
ghost use Rattle.report.specs.CycleTexts.{naming_method, open_methods};
ghost use Rattle.report.specs.Marks.{methods_after};

use crate::events::first;
use accesses::thread_of;
use atom_graph::Checker;
use jvms_machine::machine::ThreadId;
use jvms_machine::trace::Item;
use jvms_program::key::MethodKey;
use shared_data::shared::Shared;
use std::alloc::{AllocError, Global};

/// The change that an item makes to the open methods of a thread.
#[derive(Clone, Copy, Debug)]
enum Mark<'a> {
    Enters(&'a MethodKey),
    Exits,
    Nothing,
}

/// Returns the change that an item makes to the open methods of a thread.
fn mark_of(item: &Item, thread: ThreadId) -> Mark<'_>
    ensures { (lines : Specification) (w : TraceState)
        → ((state_after_item lines w item.now).threads thread).methods
        ≡ methods_after result (w.threads thread).methods }
{
    if thread_of(item) != thread {
        return Mark::Nothing;
    }
    match item {
        Item::Enter { method, .. } => Mark::Enters(method),
        Item::Exit { .. } => Mark::Exits,
        Item::Read { .. } => Mark::Nothing,
        Item::Write { .. } => Mark::Nothing,
        Item::Acquire { .. } => Mark::Nothing,
        Item::Release { .. } => Mark::Nothing,
        Item::Fork { .. } => Mark::Nothing,
        Item::Join { .. } => Mark::Nothing,
    }
}

/// Applies a change to open methods, the innermost last.
fn apply<'a>(methods: &mut Vec<&'a MethodKey>, mark: Mark<'a>) -> Result<(), AllocError>
    ensures { OnOk result (reverse (map (λ m. m.now) methods.new.items)
        ≡ methods_after mark.entry (reverse (map (λ m. m.now) methods.old.items))) }
{
    match mark {
        Mark::Enters(method) => methods.push(method)?,
        Mark::Exits => {
            methods.pop();
        }
        Mark::Nothing => {}
    }
    Ok(())
}

/// Returns the methods that a thread has open after items, the innermost last.
fn open_methods(
    alloc: Global,
    items: &[Shared<Item>],
    thread: ThreadId,
) -> Result<Vec<&MethodKey>, AllocError>
    ensures { IfOk result (λ methods. (lines : Specification) →
        reverse (map (λ m. m.now) methods.items) ≡ open_methods lines items.now thread) }
{
    let mut methods = Vec::new(alloc);
    for item in items {
        apply(&mut methods, mark_of(item.get(), thread))?;
    }
    Ok(methods)
}

/// Returns the first of these methods that a checker's specification calls atomic.
fn first_atomic<'a>(checker: &Checker, methods: &[&'a MethodKey]) -> Option<&'a MethodKey>
    ensures { option_map (λ m. m.now) result
        ≡ find (is_atomic checker.now.lines) (map (λ m. m.now) methods.now) }
{
    for method in methods {
        if checker.is_atomic(*method) {
            return Some(*method);
        }
    }
    None
}

/// Returns the innermost of open methods, the innermost last.
fn innermost(methods: Vec<&MethodKey>) -> Option<&MethodKey>
    ensures { option_map (λ m. m.now) result
        ≡ slice_get (reverse (map (λ m. m.now) methods.entry.items)) 0 }
{
    let mut methods = methods;
    methods.pop()
}

/// Returns the method that names a transaction of a thread that begins after the first `place` items: the outermost
/// atomic method that the thread has open, or the innermost if none is atomic.
pub(crate) fn naming_method<'a>(
    alloc: Global,
    checker: &'a Checker,
    place: usize,
    thread: ThreadId,
) -> Result<Option<&'a MethodKey>, AllocError>
    ensures { IfOk result (λ method. option_map (λ m. m.now) method ≡ naming_method
        checker.now.lines (open_methods checker.now.lines (take place checker.now.items) thread)) }
{
    let methods = open_methods(alloc, first(checker.items(), place), thread)?;
    let atomic = first_atomic(checker, methods.as_slice());
    Ok(atomic.or(innermost(methods)))
}
