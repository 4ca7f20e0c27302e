//! The list of a run's items.

ghost use Rattle.std.specs.Prelude.{◌≡◌, ◌<◌, ◌^◌, ◌++◌, ◌∷◌, [], length, take, IsTrue, ◌↔◌, OnOk, OnErr};

use jvms_machine::trace::Item;
use std::alloc::{AllocError, Global};
use std::marker::Model;

/// The items of a run so far. Contracts see them as a list.
#[derive(Debug, Drop)]
pub struct Trace {
    items: Vec<Item>,
}

impl Model for Trace {
    ghost use Rattle.std.specs.Prelude.{List};
    ghost use Rattle.jvms_machine.specs.declared.trace.Item.{Item};

    ghost Value = { List Item };

    ghost view = { λ t. t.items.items };
}

impl Trace {
    /// Returns a trace with no items.
    pub fn new(alloc: Global) -> Self
        ensures { result ≡ [] }
    {
        Trace {
            items: Vec::new(alloc),
        }
    }

    /// Appends an item. Without memory for it nothing changes.
    #[inline(always)]
    pub fn push(&mut self, item: Item) -> Result<(), AllocError>
        ensures ok { OnOk result (self.new ≡ self.old ++ item ∷ []) }
        ensures err { OnErr result (self.new ≡ self.old) }
    {
        self.items.push(item)?;
        Ok(())
    }

    /// Keeps the first `count` items and appends those of another trace. Without memory nothing changes.
    pub fn replace_after(&mut self, count: usize, other: Trace) -> Result<(), AllocError>
        ensures ok { OnOk result (self.new ≡ take count self.old ++ other) }
        ensures err { OnErr result (self.new ≡ self.old) }
    {
        let mut items = other.items;
        self.items.reserve(items.len())?;
        self.items.truncate(count);
        let appended = self.items.append(&mut items).is_ok();
        prove!(appended);
        Ok(())
    }

    /// Drops the items after the first `count`.
    #[inline(always)]
    pub fn truncate(&mut self, count: usize)
        ensures { self.new ≡ take count self.old }
    {
        self.items.truncate(count);
    }

    /// Returns the items in order.
    pub fn items(&self) -> &[Item]
        ensures { result.now ≡ self.now }
    {
        self.items.as_slice()
    }

    /// Returns the number of items.
    #[inline(always)]
    pub fn len(&self) -> usize
        ensures count { result ≡ length self.now }
        // A vector holds fewer.
        ensures few { result < 2 ^ 63 }
    {
        self.items.len()
    }

    /// Decides whether the trace has no items.
    pub fn is_empty(&self) -> bool
        ensures { IsTrue result ↔ (self.now ≡ []) }
    {
        self.items.is_empty()
    }
}
