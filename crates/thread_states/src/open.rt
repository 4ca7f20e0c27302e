//! The state of one thread.

ghost use Rattle.std.specs.Prelude.{◌≡◌, ◌<◌, ◌∷◌, [], None, Some, drop, IfSome, OnOk, IfOk, slice_get, if◌then◌else◌};
ghost use Rattle.std.specs.Option.{option_copied};
ghost use Rattle.velodrome.specs.Transactions.{same_method, is_innermost};
ghost use Rattle.thread_states.specs.Open.{any_atomic, keys_of, AreInner, IsRoomy};

use crate::position::ThreadPosition;
use jvms_program::key::MethodKey;
use std::alloc::{AllocError, Global};
use std::marker::Model;

/// An open method.
#[derive(Drop)]
pub(crate) struct OpenMethod {
    method: MethodKey,
    is_atomic: bool,
    /// `true` if one of the methods around it is atomic.
    is_inner: bool,
}

/// The open methods of a thread, innermost last, and its transaction.
#[derive(Drop)]
pub(crate) struct OpenMethods {
    methods: Vec<OpenMethod>,
    transaction: Option<u64>,
}

impl Model for OpenMethods {
    ghost use Rattle.std.specs.Prelude.{◌-◌, reverse, vec_len, vec_capacity};
    ghost use Rattle.thread_states.specs.Open.{Open, AreInner};

    ghost Value = { Open };

    ghost view = { λ o. record {
      methods = reverse o.methods.items;
      transaction = o.transaction;
      room = vec_capacity o.methods - vec_len o.methods;
    } };

    ghost invariant = { λ o. AreInner (reverse o.methods.items) };
}

/// Decides whether two keys are of one method.
fn is_same(method: &MethodKey, other: &MethodKey) -> bool
    ensures { result ≡ same_method method.now other.now }
{
    method.class.as_slice() == other.class.as_slice()
        && method.name.as_slice() == other.name.as_slice()
        && method.descriptor.as_slice() == other.descriptor.as_slice()
}

impl OpenMethods {
    /// Returns a state without open methods, with memory for the first.
    pub(crate) fn with_capacity(alloc: Global) -> Result<Self, AllocError>
        ensures { IfOk result IsRoomy }
    {
        Ok(OpenMethods {
            methods: Vec::with_capacity(alloc, 1)?,
            transaction: None,
        })
    }

    /// Returns the innermost method.
    fn innermost(&self) -> Option<&OpenMethod>
        ensures method { option_copied result ≡ slice_get self.now.methods 0 }
        ensures inner { AreInner self.now.methods }
    {
        self.methods.as_slice().last()
    }

    /// Decides whether a method is the innermost one.
    pub(crate) fn is_innermost(&self, method: &MethodKey) -> bool
        ensures { result ≡ is_innermost method.now (keys_of self.now.methods) }
    {
        match self.innermost() {
            None => false,
            Some(open) => is_same(method, &open.method),
        }
    }

    /// Decides whether one of the methods is atomic.
    pub(crate) fn is_in_atomic(&self) -> bool
        ensures { result ≡ any_atomic self.now.methods }
    {
        match self.innermost() {
            None => false,
            Some(open) => open.is_atomic || open.is_inner,
        }
    }

    /// Decides whether one of the methods around the innermost is atomic.
    pub(crate) fn stays_in_atomic(&self) -> bool
        ensures { result ≡ any_atomic (drop 1 self.now.methods) }
    {
        match self.innermost() {
            None => false,
            Some(open) => open.is_inner,
        }
    }

    /// Returns the transaction that the thread is in, and whether one of the methods is atomic.
    pub(crate) fn position(&self) -> ThreadPosition
        ensures transaction { result.transaction ≡ self.now.transaction }
        ensures is_in_atomic { result.is_in_atomic ≡ any_atomic self.now.methods }
    {
        ThreadPosition {
            transaction: self.transaction,
            is_in_atomic: self.is_in_atomic(),
        }
    }

    /// Returns the transaction that ends with the exit of the innermost method, if one does.
    pub(crate) fn over(&self) -> Option<u64>
        ensures { result
            ≡ (if any_atomic (drop 1 self.now.methods) then None else self.now.transaction) }
    {
        if self.stays_in_atomic() {
            None
        } else {
            self.transaction
        }
    }

    /// Returns the position of the thread if there is memory for one more method.
    pub(crate) fn ready_position(&self) -> Option<ThreadPosition>
        ensures { IfSome result (λ s. (s.transaction ≡ self.now.transaction)
            × (s.is_in_atomic ≡ any_atomic self.now.methods) × (0 < self.now.room)) }
    {
        if self.methods.len() < self.methods.capacity() {
            Some(self.position())
        } else {
            None
        }
    }

    /// Reserves the memory for one more method.
    pub(crate) fn reserve(&mut self) -> Result<(), AllocError>
        ensures methods { self.new.methods ≡ self.old.methods }
        ensures transaction { self.new.transaction ≡ self.old.transaction }
        ensures room { OnOk result (0 < self.new.room) }
    {
        self.methods.reserve(1)
    }

    /// Enters a method.
    pub(crate) fn enter(&mut self, method: MethodKey, is_atomic: bool)
        requires { 0 < self.old.room }
        ensures methods { self.new.methods ≡ record {
          method = method;
          is_atomic = is_atomic;
          is_inner = any_atomic self.old.methods;
        } ∷ self.old.methods }
        ensures transaction { self.new.transaction ≡ self.old.transaction }
    {
        let is_inner = self.is_in_atomic();
        self.methods.push_reserved(OpenMethod {
            method,
            is_atomic,
            is_inner,
        });
    }

    /// Leaves the innermost method. The transaction stays open if an atomic method stays open.
    pub(crate) fn exit(&mut self)
        ensures methods { self.new.methods ≡ drop 1 self.old.methods }
        ensures transaction { self.new.transaction
            ≡ (if any_atomic (drop 1 self.old.methods) then self.old.transaction else None) }
    {
        if !self.stays_in_atomic() {
            self.transaction = None;
        }
        self.methods.pop();
    }

    /// Records an event of the thread in a transaction. The transaction stays open if an atomic method is open.
    pub(crate) fn happened(&mut self, transaction: u64)
        ensures methods { self.new.methods ≡ self.old.methods }
        ensures transaction { self.new.transaction
            ≡ (if any_atomic self.old.methods then Some transaction else None) }
    {
        self.transaction = if self.is_in_atomic() {
            Some(transaction)
        } else {
            None
        };
    }
}
