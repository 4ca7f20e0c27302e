//! A direct-mapped cache of fed items. A trace repeats the same few items, and equal items share one allocation.

ghost use Rattle.std.specs.Prelude.{◌≡◌, IfOk, IfSome, IsTrue};

use crate::copies::share_item;
use accesses::hash_of_item;
use jvms_machine::trace::Item;
use shared_data::shared::Shared;
use std::alloc::{AllocError, Global};

/// The initial number of slots.
const FEWEST: usize = 64;

/// The maximum number of slots.
const MOST: usize = 65_536;

/// The cached items: for each remainder of a hash the last item with it.
#[derive(Drop)]
pub(crate) struct ItemCache {
    items: Vec<Option<Shared<Item>>>,
    /// The number of misses since the cache last grew.
    missed: usize,
    alloc: Global,
}

impl ItemCache {
    /// Returns an empty cache. It takes no memory.
    pub(crate) fn new(alloc: Global) -> Self {
        ItemCache {
            items: Vec::new(alloc),
            missed: 0,
            alloc,
        }
    }

    /// Returns a shared item equal to this one: the cached one, or else a new clone. `hash` is the hash of what the
    /// item touches.
    pub(crate) fn shared_item(&mut self, hash: u32, item: &Item) -> Result<Shared<Item>, AllocError>
        ensures { IfOk result (λ i. i ≡ item.now) }
    {
        let hash = hash_of_item(hash, item);
        if let Some(cached) = self.cached_in(self.slot_of(hash), item)? {
            return Ok(cached);
        }
        let cached = Shared::new(self.alloc, share_item(item)?)?;
        self.keep(hash, &cached)?;
        Ok(cached)
    }

    /// Returns the slot of a hash.
    fn slot_of(&self, hash: u32) -> usize {
        hash as usize & self.items.len().wrapping_sub(1)
    }

    /// Returns the item in a slot, if it equals this one.
    fn cached_in(&self, slot: usize, item: &Item) -> Result<Option<Shared<Item>>, AllocError>
        ensures { IfOk result (λ o. IfSome o (λ i. i ≡ item.now)) }
    {
        match self.items.get(slot) {
            Some(Some(cached)) => same_one(cached, item),
            _ => Ok(None),
        }
    }

    /// Stores an item that missed. The cache grows if it missed as often as it has slots.
    fn keep(&mut self, hash: u32, item: &Shared<Item>) -> Result<(), AllocError> {
        if self.missed >= self.items.len() {
            self.grow()?;
        }
        self.missed = self.missed.saturating_add(1);
        let slot = self.slot_of(hash);
        if slot < self.items.len() {
            self.items[slot] = Some(item.share()?);
        }
        Ok(())
    }

    /// Doubles the number of slots, up to the maximum.
    fn grow(&mut self) -> Result<(), AllocError> {
        let count = self.items.len();
        if count < MOST {
            for _ in count..(2 * count).max(FEWEST) {
                self.items.push(None)?;
            }
            self.missed = 0;
        }
        Ok(())
    }
}

/// Shares a cached item, if it equals another one.
fn same_one(cached: &Shared<Item>, item: &Item) -> Result<Option<Shared<Item>>, AllocError>
    ensures { IfOk result (λ o. IfSome o (λ i. i ≡ item.now)) }
{
    if is_same(cached.get(), item) {
        Ok(Some(cached.share()?))
    } else {
        Ok(None)
    }
}

/// Decides whether two items are equal.
fn is_same(item: &Item, other: &Item) -> bool
    ensures { IsTrue result → item.now ≡ other.now }
{
    item == other
}
