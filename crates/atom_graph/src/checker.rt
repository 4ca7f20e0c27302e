//! The checker of atomicity, which is fed one item at a time.

ghost use Rattle.std.specs.Prelude.{◌≡◌, ℕ, true, List, [], length, map, IfOk, MatchOption};
ghost use Rattle.jvms_machine.specs.Events.{thread_of};
ghost use Rattle.velodrome.specs.Cycles.{AreAtomic, IsCycle};
ghost use Rattle.velodrome.specs.Reach.{AreReached};
ghost use Rattle.velodrome.specs.Rearrangements.{IsRearrangement, IsSerial};
ghost use Rattle.velodrome.specs.Specification.{is_atomic};
ghost use Rattle.velodrome.specs.Transactions.{is_event};
ghost use Rattle.velodrome.specs.Verdicts.{IsVerdict};
ghost use Rattle.jvms_machine.specs.declared.trace.Item.TheVariants.{Enter, Exit};
ghost use Rattle.atom_graph.specs.Checking.{IsFeeding, state_of_fed};

use crate::copies::share_method;
use crate::counts::Counts;
use crate::fault::FeedFault;
use crate::stay::Stay;
use crate::stored_trace::StoredTrace;
use crate::watch::Watch;
use accesses::hash_of_touched;
use jvms_machine::machine::ThreadId;
use jvms_machine::trace::Item;
use jvms_program::key::MethodKey;
use shared_data::items::Items;
use shared_data::shared::Shared;
use std::alloc::{AllocError, Global};
use std::marker::Model;
use thread_states::atom_spec::Spec;
use velodrome::verdict::Verdict;

/// The maximum number of events.
const MOST_EVENTS: usize = 100_000_000;

/// A checker of atomicity. Contracts see the lines of the specification and the items that it was fed.
#[derive(Drop)]
pub struct Checker {
    trace: StoredTrace,
    watch: Watch,
}

impl Model for Checker {
    ghost use Rattle.atom_graph.specs.Checked.{IsChecker};
    ghost use Rattle.atom_graph.specs.Checking.{Fed};
    ghost use Rattle.atom_graph.specs.StoredTrace.{fed_of};

    ghost Value = { Fed };

    ghost view = { λ c. fed_of c.trace };

    ghost invariant = { λ c. IsChecker c.trace c.watch };
}

impl Checker {
    /// Returns a checker of traces under a specification.
    pub fn new(alloc: Global, spec: Spec) -> Result<Self, AllocError>
        ensures { IfOk result (λ c. c ≡ record { lines = spec; items = [] }) }
    {
        let watch = Watch::new(alloc)?;
        let trace = StoredTrace::new(alloc, spec);
        Ok(Checker { trace, watch })
    }

    /// Feeds the next item. If it is refused nothing changes.
    ///
    /// # Errors
    ///
    /// F01 if it is an exit of a method other than its thread's innermost open one. F02 if it is an event past
    /// 100,000,000. F03 if memory ran out.
    pub fn feed(&mut self, item: &Item) -> Result<(), FeedFault>
        ensures { IsFeeding self.old item.now result self.new }
    {
        match item {
            Item::Enter { thread, method } => self.enter(*thread, method, item),
            Item::Exit { thread, method } => self.exit(*thread, method, item),
            Item::Read { thread, .. } => self.event(*thread, item),
            Item::Write { thread, .. } => self.event(*thread, item),
            Item::Acquire { thread, .. } => self.event(*thread, item),
            Item::Release { thread, .. } => self.event(*thread, item),
            Item::Fork { thread, .. } => self.event(*thread, item),
            Item::Join { thread, .. } => self.event(*thread, item),
        }
    }

    /// Feeds the entry of a method.
    fn enter(&mut self, thread: ThreadId, method: &MethodKey, item: &Item) -> Result<(), FeedFault>
        requires { item.now ≡ Enter thread method.now }
        ensures { IsFeeding self.old item.now result self.new }
    {
        let key = share_method(method)?;
        let copy = self.trace.prepare(thread, hash_of_touched(item), item)?;
        self.trace.entered(thread, key, copy);
        Ok(())
    }

    /// Feeds the exit of a method.
    fn exit(&mut self, thread: ThreadId, method: &MethodKey, item: &Item) -> Result<(), FeedFault>
        requires { item.now ≡ Exit thread method.now }
        ensures { IsFeeding self.old item.now result self.new }
    {
        if !self.trace.threads.is_innermost(thread, method) {
            return Err(FeedFault::Unmatched);
        }
        let copy = self.trace.prepare_exit(hash_of_touched(item), item)?;
        let over = self.trace.over(thread);
        self.watch.leave(over)?;
        self.trace.exited(thread, copy);
        Ok(())
    }

    /// Feeds an event.
    fn event(&mut self, thread: ThreadId, item: &Item) -> Result<(), FeedFault>
        requires thread { thread_of item.now ≡ thread }
        requires event { is_event item.now ≡ true }
        ensures { IsFeeding self.old item.now result self.new }
    {
        let events = self.trace.transactions.len();
        if events >= MOST_EVENTS {
            return Err(FeedFault::TooMany);
        }
        let hash = hash_of_touched(item);
        let (position, copy) = self.trace.prepare_event(thread, hash, item)?;
        let transaction = self.trace.next(position.transaction);
        let stay = Stay::of(position.transaction, position.is_in_atomic);
        self.watch
            .event(events as u64 + 1, transaction, stay, hash, item)?;
        self.trace.happened(thread, position, transaction, copy);
        Ok(())
    }

    /// Returns the number of events and of transactions so far.
    pub fn counts(&self) -> Counts
        ensures events { result.events ≡ length (state_of_fed self.now).events }
        ensures transactions { result.transactions ≡ (state_of_fed self.now).transactions }
    {
        Counts {
            events: self.trace.transactions.len() as u64,
            transactions: self.trace.begun,
        }
    }

    /// Returns the items that were fed, in order.
    pub fn items(&self) -> &[Shared<Item>]
        ensures { result.now ≡ self.now.items }
    {
        self.trace.items.as_slice()
    }

    /// Returns the number of the transaction of each event, in the order of the events.
    pub fn transactions(&self) -> &[u64]
        ensures { result.now ≡ map (λ e. e.transaction) (state_of_fed self.now).events }
    {
        self.trace.transactions.as_slice()
    }

    /// Decides whether the specification calls a method atomic.
    pub fn is_atomic(&self, method: &MethodKey) -> bool
        ensures { result ≡ is_atomic self.now.lines method.now }
    {
        self.trace.threads.is_atomic(method)
    }

    /// Returns the number of transactions that open ones reach, as long as there is no cycle.
    pub fn live(&self) -> u64
        ensures { AreAtomic (state_of_fed self.now).events
            → AreReached (state_of_fed self.now) result }
    {
        self.watch.reduced.graph.live_count() as u64
    }

    /// Returns the verdict: an order of the transactions if the trace is atomic, else its first cycle.
    pub fn verdict(&self) -> Result<Verdict, AllocError>
        ensures { IfOk result (IsVerdict (state_of_fed self.now)) }
    {
        match &self.watch.found {
            Some(found) => found.verdict(self.watch.alloc),
            None => Ok(Verdict::Atomic {
                order: Items::from_vec(self.watch.reduced.order(self.watch.alloc)?),
            }),
        }
    }

    /// Returns the events in a serial order, or `None` if there is a cycle.
    pub fn serial(&self) -> Result<Option<Vec<u64>>, AllocError>
        ensures { IfOk result
            (λ o. MatchOption o (((ts : List ℕ) × IsCycle (state_of_fed self.now).events ts)
            × ((numbers : List ℕ) → IsRearrangement (state_of_fed self.now).events numbers → ⊥))
            (λ v. AreAtomic (state_of_fed self.now).events
            × IsSerial (state_of_fed self.now).events v.items)) }
    {
        if self.watch.found.is_some() {
            return Ok(None);
        }
        let alloc = self.watch.alloc;
        let order = self.watch.reduced.order(alloc)?;
        let numbers = serial_order::serial(
            alloc,
            self.trace.transactions.as_slice(),
            order.as_slice(),
        )?;
        Ok(Some(Vec::from_slice(alloc, numbers.as_slice())?))
    }
}
