//! Decides what happens to the items of turns: they are recorded or dropped.

ghost use Rattle.std.specs.Prelude.{◌≡◌, ◌∷◌, [], false, None, Some, IsSome, IsTrue, OnOk, OnErr};
ghost use Rattle.trace.specs.Recording.{with_items, count_of, first_items};

use crate::list::Trace;
use jvms_machine::trace::Item;
use std::alloc::{AllocError, Global};
use std::marker::Model;
use std::mem;

/// A recording of items: a trace to which they are appended, or nothing if they are dropped. Contracts see the recorded
/// list, if there is one.
#[derive(Debug, Drop)]
pub struct Recording {
    trace: Option<Trace>,
}

impl Model for Recording {
    ghost use Rattle.std.specs.Prelude.{List, Option};
    ghost use Rattle.jvms_machine.specs.declared.trace.Item.{Item};

    ghost Value = { Option (List Item) };

    ghost view = { λ r. r.trace };
}

impl Recording {
    /// Returns a recording that appends items to a trace.
    pub fn of(trace: Trace) -> Self
        ensures { result ≡ Some trace }
    {
        Recording { trace: Some(trace) }
    }

    /// Returns a recording that drops items.
    pub fn of_nothing() -> Self
        ensures { result ≡ None }
    {
        Recording { trace: None }
    }

    /// Moves the items out of a trace, so that others can be appended. The trace is empty until `give_back`.
    pub fn taken_from(alloc: Global, trace: &mut Trace) -> Self
        ensures { result ≡ Some trace.old }
    {
        Recording::of(mem::replace(trace, Trace::new(alloc)))
    }

    /// Moves the items back into a trace, with those that were appended.
    pub fn give_back(self, trace: &mut Trace)
        requires { IsSome self }
        ensures { self ≡ Some trace.new }
    {
        match self.trace {
            Some(kept) => *trace = kept,
            None => unreachable!(),
        }
    }

    /// Decides whether items are recorded.
    #[inline(always)]
    pub fn keeps(&self) -> bool
        ensures some { IsTrue result → IsSome self.now }
        ensures none { result ≡ false → self.now ≡ None }
    {
        self.trace.is_some()
    }

    /// Appends an item, if items are recorded. Without memory for it nothing changes.
    #[inline(always)]
    pub fn push(&mut self, item: Item) -> Result<(), AllocError>
        ensures ok { OnOk result (self.new ≡ with_items self.old (item ∷ [])) }
        ensures err { OnErr result (self.new ≡ self.old) }
    {
        match &mut self.trace {
            None => Ok(()),
            Some(trace) => trace.push(item),
        }
    }

    /// Drops the recorded items after the first `count`.
    #[inline(always)]
    pub fn truncate(&mut self, count: usize)
        ensures { self.new ≡ first_items count self.old }
    {
        if let Some(trace) = &mut self.trace {
            trace.truncate(count);
        }
    }

    /// Returns the number of recorded items.
    #[inline(always)]
    pub fn len(&self) -> usize
        ensures { result ≡ count_of self.now }
    {
        match &self.trace {
            None => 0,
            Some(trace) => trace.len(),
        }
    }

    /// Returns the trace of the recorded items, if items are recorded.
    pub fn into_trace(self) -> Option<Trace>
        ensures { result ≡ self }
    {
        self.trace
    }
}
