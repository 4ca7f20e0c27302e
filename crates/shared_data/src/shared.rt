//! A value that several parts of shared data have in common, without a copy.

ghost use Rattle.std.specs.Prelude.{◌≡◌, IfOk};

use crate::items::Items;
use std::alloc::{AllocError, Global};
use std::marker::Model;
use std::sync::Arc;

/// A reference-counted value that any threads may share. Contracts see the value itself.
#[derive(Debug, Drop)]
pub struct Shared<T> {
    inner: Arc<T, Global>,
}

/// A shared text of UTF-16 code units, such as a name or a descriptor.
pub type Text = Shared<Items<u16>>;

impl<T> Model for Shared<T> {
    ghost Value = { T };

    ghost view = { λ s. s.inner.value };
}

impl<T> Shared<T> {
    /// Moves a value into a new allocation, with a reference count of 1.
    pub fn new(alloc: Global, value: T) -> Result<Self, AllocError>
    where
        T: Drop,
        ensures { IfOk result (λ s. s ≡ value) }
    {
        Ok(Shared {
            inner: Arc::new(alloc, value)?,
        })
    }

    /// Returns the value.
    pub fn get(&self) -> &T
        ensures { result.now ≡ self.now }
    {
        &*self.inner
    }

    /// Clones the reference to the value.
    pub fn share(&self) -> Result<Self, AllocError>
        ensures { IfOk result (λ s. s ≡ self.now) }
    {
        Ok(Shared {
            inner: Arc::try_clone(&self.inner)?,
        })
    }
}

impl<T> Shared<Items<T>> {
    /// Returns the items of a shared list, in order.
    pub fn as_slice(&self) -> &[T]
        ensures { result.now ≡ self.now }
    {
        self.get().as_slice()
    }
}

impl<T: PartialEq> PartialEq for Shared<T> {
    ghost eq = { T.eq };

    ghost laws = { T.laws };

    fn eq(&self, other: &Self) -> bool {
        self.get() == other.get()
    }
}

impl<T: Eq> Eq for Shared<T> {
    ghost laws = { T.Eq.laws };
}
