//! A list of numbers that knows fast which are in it.

ghost use Rattle.std.specs.Prelude.{◌≡◌, ◌++◌, ◌∷◌, [], OnOk, OnErr};
ghost use Rattle.atom_order.specs.Reaching.{is_among};

use std::alloc::{AllocError, Global};
use std::collections::BTreeSet;
use std::marker::Model;

/// A list of numbers, and the set of them. Contracts see the list.
#[derive(Drop)]
pub struct Numbers {
    list: Vec<u64>,
    set: BTreeSet<u64>,
}

impl Model for Numbers {
    ghost use Rattle.std.specs.Prelude.{List, ℕ};
    ghost use Rattle.atom_order.specs.Marking.{HasMarks};

    ghost Value = { List ℕ };

    ghost view = { λ n. n.list.items };

    ghost invariant = { λ n. HasMarks n.set.keys n.list.items };
}

impl Numbers {
    /// Returns an empty list.
    pub fn new(alloc: Global) -> Self
        ensures { result ≡ [] }
    {
        Numbers {
            list: Vec::new(alloc),
            set: BTreeSet::new(alloc),
        }
    }

    /// Decides whether a number is in the list.
    pub fn contains(&self, number: u64) -> bool
        ensures { result ≡ is_among number self.now }
    {
        self.set.contains(&number)
    }

    /// Appends a number. Without memory nothing changes.
    pub fn push(&mut self, number: u64) -> Result<(), AllocError>
        ensures ok { OnOk result (self.new ≡ self.old ++ number ∷ []) }
        ensures err { OnErr result (self.new ≡ self.old) }
    {
        self.list.reserve(1)?;
        self.set.insert(number)?;
        self.list.push_reserved(number);
        Ok(())
    }

    /// Returns the numbers in order.
    pub fn into_vec(self) -> Vec<u64>
        ensures { result.items ≡ self }
    {
        self.list
    }
}
