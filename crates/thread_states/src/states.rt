//! The state of each thread: its open methods and its transaction.

ghost use Rattle.std.specs.Prelude.{◌≡◌, ℕ, [], None, Some, drop, IfOk, IfSome, OnOk, if◌then◌else◌};
ghost use Rattle.velodrome.specs.Specification.{is_atomic};
ghost use Rattle.velodrome.specs.Transactions.{with_entry, with_exit, has_atomic, is_innermost};
ghost use Rattle.thread_states.specs.ThreadStates.{thread_state_in, IsChanged};
ghost use Rattle.thread_states.specs.Seen.{HasRoom};
ghost use Rattle.thread_states.specs.Positions.{IsPosition};

use crate::open::OpenMethods;
use crate::position::ThreadPosition;
use atom_spec::Spec;
use jvms_machine::machine::ThreadId;
use jvms_program::key::MethodKey;
use std::alloc::{AllocError, Global};
use std::collections::BTreeMap;
use std::marker::Model;

/// The open methods and the transaction of each thread, by a specification of the atomic methods.
#[derive(Drop)]
pub struct ThreadStates {
    spec: Spec,
    threads: BTreeMap<u32, OpenMethods>,
    alloc: Global,
}

impl Model for ThreadStates {
    ghost use Rattle.thread_states.specs.Seen.{Seen, table_of, rooms_of, AreMarked};

    ghost Value = { Seen };

    ghost view = { λ c. record {
      lines = c.spec;
      table = table_of c.threads.entries;
      rooms = rooms_of c.threads.entries;
    } };

    ghost invariant = { λ c. AreMarked c.spec c.threads.entries };
}

impl ThreadStates {
    /// Returns the states of threads that have no method open. Takes no memory.
    pub fn new(alloc: Global, spec: Spec) -> Self
        ensures { result ≡ record { lines = spec; table = []; rooms = [] } }
    {
        ThreadStates {
            spec,
            threads: BTreeMap::new(alloc),
            alloc,
        }
    }

    /// Decides whether the specification calls a method atomic.
    pub fn is_atomic(&self, method: &MethodKey) -> bool
        ensures { result ≡ is_atomic self.now.lines method.now }
    {
        self.spec.is_atomic(method)
    }

    /// Decides whether a method is the innermost open one of a thread.
    pub fn is_innermost(&self, thread: ThreadId, method: &MethodKey) -> bool
        ensures { result ≡ is_innermost method.now (thread_state_in self.now.table thread).methods }
    {
        match self.threads.get(&thread) {
            None => false,
            Some(open) => open.is_innermost(method),
        }
    }

    /// Returns the position of a thread.
    fn position(&self, thread: ThreadId) -> ThreadPosition
        ensures { IsPosition result self.now.lines (thread_state_in self.now.table thread) }
    {
        match self.threads.get(&thread) {
            None => ThreadPosition {
                transaction: None,
                is_in_atomic: false,
            },
            Some(open) => open.position(),
        }
    }

    /// Returns the transaction that ends with the next exit of a thread, if one does.
    pub fn over(&self, thread: ThreadId) -> Option<u64>
        ensures { result
            ≡ (if has_atomic self.now.lines (drop 1 (thread_state_in self.now.table thread).methods)
            then None else (thread_state_in self.now.table thread).transaction) }
    {
        match self.threads.get(&thread) {
            None => None,
            Some(open) => open.over(),
        }
    }

    /// Returns the position of a thread if the memory that its next item needs is reserved.
    fn ready_position(&self, thread: ThreadId) -> Option<ThreadPosition>
        ensures { IfSome result
            (λ s. IsPosition s self.now.lines (thread_state_in self.now.table thread)
            × HasRoom thread self.now) }
    {
        match self.threads.get(&thread) {
            None => None,
            Some(open) => open.ready_position(),
        }
    }

    /// Reserves the memory that the next item of a thread needs, and returns the thread's position. No thread's state
    /// changes.
    pub fn ready(&mut self, thread: ThreadId) -> Result<ThreadPosition, AllocError>
        ensures lines { self.new.lines ≡ self.old.lines }
        ensures same { (u : ℕ)
            → thread_state_in self.new.table u ≡ thread_state_in self.old.table u }
        ensures ready { IfOk result
            (λ s. IsPosition s self.new.lines (thread_state_in self.new.table thread)
            × HasRoom thread self.new) }
    {
        if let Some(position) = self.ready_position(thread) {
            return Ok(position);
        }
        self.reserve(thread)?;
        Ok(self.position(thread))
    }

    /// Reserves the memory that the next item of a thread needs. No thread's state changes.
    pub fn reserve(&mut self, thread: ThreadId) -> Result<(), AllocError>
        ensures lines { self.new.lines ≡ self.old.lines }
        ensures same { (u : ℕ)
            → thread_state_in self.new.table u ≡ thread_state_in self.old.table u }
        ensures room { OnOk result (HasRoom thread self.new) }
    {
        match self.threads.get_mut(&thread) {
            Some(open) => open.reserve(),
            None => {
                let open = OpenMethods::with_capacity(self.alloc)?;
                self.threads.insert(thread, open)?;
                Ok(())
            }
        }
    }

    /// Enters a method in a thread.
    pub fn enter(&mut self, thread: ThreadId, method: MethodKey)
        requires { HasRoom thread self.old }
        ensures lines { self.new.lines ≡ self.old.lines }
        ensures state { IsChanged thread (with_entry method
            (thread_state_in self.old.table thread)) self.old.table self.new.table }
    {
        let is_atomic = self.spec.is_atomic(&method);
        let Some(open) = self.threads.get_mut(&thread) else {
            return;
        };
        open.enter(method, is_atomic);
    }

    /// Leaves the innermost method of a thread. Its transaction ends with the last atomic one. A thread without an open
    /// method doesn't change.
    pub fn exit(&mut self, thread: ThreadId)
        ensures lines { self.new.lines ≡ self.old.lines }
        ensures state { IsChanged thread (with_exit self.old.lines
            (thread_state_in self.old.table thread)) self.old.table self.new.table }
    {
        let Some(open) = self.threads.get_mut(&thread) else {
            return;
        };
        open.exit();
    }

    /// Records an event of a thread in a transaction. The transaction stays open if an atomic method is open.
    pub fn happened(&mut self, thread: ThreadId, transaction: u64)
        requires { HasRoom thread self.old }
        ensures lines { self.new.lines ≡ self.old.lines }
        ensures state { IsChanged thread (record (thread_state_in self.old.table thread) {
          transaction = if has_atomic self.old.lines (thread_state_in self.old.table thread).methods
              then Some transaction else None;
        }) self.old.table self.new.table }
    {
        let Some(open) = self.threads.get_mut(&thread) else {
            return;
        };
        open.happened(transaction);
    }

    /// Records an event of a thread whose position is known. Fast path of `happened`: mostly nothing changes.
    pub fn happened_in(&mut self, thread: ThreadId, position: ThreadPosition, transaction: u64)
        requires room { HasRoom thread self.old }
        requires position { IsPosition position self.old.lines
            (thread_state_in self.old.table thread) }
        requires transaction { IfSome position.transaction (λ t. transaction ≡ t) }
        ensures lines { self.new.lines ≡ self.old.lines }
        ensures state { IsChanged thread (record (thread_state_in self.old.table thread) {
          transaction = if has_atomic self.old.lines (thread_state_in self.old.table thread).methods
              then Some transaction else None;
        }) self.old.table self.new.table }
    {
        if position.stays() {
            return;
        }
        self.happened(thread, transaction);
    }
}
