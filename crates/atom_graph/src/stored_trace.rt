//! The state of a trace, as the checker stores it.

ghost use Rattle.std.specs.Prelude.{◌≡◌, ◌<◌, ◌^◌, [], drop, IfOk, if◌then◌else◌, Some, None, vec_len, vec_capacity};
ghost use Rattle.velodrome.specs.Transactions.{transactions_after, next_transaction};
ghost use Rattle.thread_states.specs.ThreadStates.{thread_state_in};
ghost use Rattle.thread_states.specs.Positions.{IsPosition};
ghost use Rattle.atom_graph.specs.StoredTrace.{HasRoomFor, IsEntered, IsExited, IsHappened, IsSame, ending_transaction};

use crate::item_cache::ItemCache;
use jvms_machine::machine::ThreadId;
use jvms_machine::trace::Item;
use jvms_program::key::MethodKey;
use shared_data::shared::Shared;
use std::alloc::{AllocError, Global};
use thread_states::atom_spec::Spec;
use thread_states::{ThreadPosition, ThreadStates};

/// The state of each thread, the items, the transaction of each event, and the number of transactions that have begun.
#[derive(Drop)]
pub(crate) struct StoredTrace {
    pub threads: ThreadStates,
    pub items: Vec<Shared<Item>>,
    pub cache: ItemCache,
    pub transactions: Vec<u64>,
    pub begun: u64,
}

impl StoredTrace {
    /// Returns the state of an empty trace.
    pub(crate) fn new(alloc: Global, spec: Spec) -> Self
        ensures lines { result.threads.lines ≡ spec }
        ensures table { result.threads.table ≡ [] }
        ensures items { result.items.items ≡ [] }
        ensures transactions { result.transactions.items ≡ [] }
        ensures begun { result.begun ≡ 0 }
    {
        StoredTrace {
            threads: ThreadStates::new(alloc, spec),
            items: Vec::new(alloc),
            cache: ItemCache::new(alloc),
            transactions: Vec::new(alloc),
            begun: 0,
        }
    }

    /// Reserves the memory that the entry of a method by a thread needs, and returns a shared item equal to it. `hash`
    /// is the hash of what the item touches: with any other number the cache misses.
    pub(crate) fn prepare(
        &mut self,
        thread: ThreadId,
        hash: u32,
        item: &Item,
    ) -> Result<Shared<Item>, AllocError>
        ensures same { IsSame self.old self.new }
        ensures room { IfOk result (λ i. (i ≡ item.now) × HasRoomFor thread self.new) }
    {
        self.threads.reserve(thread)?;
        self.items.reserve(1)?;
        self.transactions.reserve(1)?;
        self.cache.shared_item(hash, item)
    }

    /// Reserves the memory that the exit of a method needs, and returns a shared item equal to it.
    pub(crate) fn prepare_exit(
        &mut self,
        hash: u32,
        item: &Item,
    ) -> Result<Shared<Item>, AllocError>
        ensures same { IsSame self.old self.new }
        ensures room { IfOk result
            (λ i. (i ≡ item.now) × (vec_len self.new.items < vec_capacity self.new.items)) }
    {
        self.items.reserve(1)?;
        self.cache.shared_item(hash, item)
    }

    /// Reserves the memory that an event of a thread needs. Returns the thread's position, and a shared item equal to
    /// the event.
    pub(crate) fn prepare_event(
        &mut self,
        thread: ThreadId,
        hash: u32,
        item: &Item,
    ) -> Result<(ThreadPosition, Shared<Item>), AllocError>
        ensures same { IsSame self.old self.new }
        ensures room { IfOk result (λ r. (r.1 ≡ item.now) × HasRoomFor thread self.new) }
        ensures position { IfOk result (λ r. IsPosition r.0 self.new.threads.lines
            (thread_state_in self.new.threads.table thread)) }
    {
        let position = self.threads.ready(thread)?;
        self.items.reserve(1)?;
        self.transactions.reserve(1)?;
        let copy = self.cache.shared_item(hash, item)?;
        Ok((position, copy))
    }

    /// Returns the transaction of the next event of a thread that is in transaction `current`, if in any.
    pub(crate) fn next(&self, current: Option<u64>) -> u64
        requires { self.now.begun < 2 ^ 63 }
        ensures { result ≡ next_transaction current self.now.begun }
    {
        match current {
            Some(transaction) => transaction,
            None => self.begun + 1,
        }
    }

    /// Returns how many transactions have begun after the next event of a thread that is in transaction `current`, if
    /// in any.
    fn transactions_after(&self, current: Option<u64>) -> u64
        requires { self.now.begun < 2 ^ 63 }
        ensures { result ≡ transactions_after current self.now.begun }
    {
        match current {
            Some(_) => self.begun,
            None => self.begun + 1,
        }
    }

    /// Returns the transaction that ends with a thread's next exit.
    pub(crate) fn over(&self, thread: ThreadId) -> Option<u64>
        ensures { result ≡ ending_transaction self.now.threads.lines
            (thread_state_in self.now.threads.table thread) }
    {
        self.threads.over(thread)
    }

    /// Records an event of a thread in a transaction. `position` is the position of the thread before.
    pub(crate) fn happened(
        &mut self,
        thread: ThreadId,
        position: ThreadPosition,
        transaction: u64,
        item: Shared<Item>,
    )
        requires room { HasRoomFor thread self.old }
        requires begun { self.old.begun < 2 ^ 63 }
        requires position { IsPosition position self.old.threads.lines
            (thread_state_in self.old.threads.table thread) }
        requires transaction { transaction ≡ next_transaction position.transaction self.old.begun }
        ensures { IsHappened thread transaction item self.old self.new }
    {
        self.begun = self.transactions_after(position.transaction);
        self.threads.happened_in(thread, position, transaction);
        self.transactions.push_reserved(transaction);
        self.items.push_reserved(item);
    }

    /// Records that a thread entered a method.
    pub(crate) fn entered(&mut self, thread: ThreadId, method: MethodKey, item: Shared<Item>)
        requires { HasRoomFor thread self.old }
        ensures { IsEntered thread method item self.old self.new }
    {
        self.threads.enter(thread, method);
        self.items.push_reserved(item);
    }

    /// Records that a thread left its innermost method.
    pub(crate) fn exited(&mut self, thread: ThreadId, item: Shared<Item>)
        requires { vec_len self.old.items < vec_capacity self.old.items }
        ensures { IsExited thread item self.old self.new }
    {
        self.threads.exit(thread);
        self.items.push_reserved(item);
    }
}
