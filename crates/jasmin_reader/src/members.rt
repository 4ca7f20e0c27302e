//! A set of the names and descriptors of fields or methods. No two members of a class have the same.

ghost use Rattle.std.specs.Prelude.{◌≡◌, ℕ, List, false, ◌&&◌, ◌||◌, OnOk, IfOk};
ghost use Rattle.jvms_file.specs.Names.{same_text};
ghost use Rattle.jasmin_reader.specs.Members.{has_member};

use crate::member::Member;
use shared_data::shared::Text;
use std::alloc::{AllocError, Global};
use std::collections::BTreeSet;

/// A set of names, each with a descriptor.
#[derive(Drop)]
pub(crate) struct Members {
    pairs: BTreeSet<Member>,
}

impl Members {
    /// Returns the empty set.
    pub(crate) fn new(alloc: Global) -> Self
        ensures { (name descriptor : List ℕ) → has_member result name descriptor ≡ false }
    {
        Members {
            pairs: BTreeSet::new(alloc),
        }
    }

    /// Decides whether a name with a descriptor is in the set.
    pub(crate) fn has(&self, name: &Text, descriptor: &Text) -> Result<bool, AllocError>
        ensures { IfOk result (λ has. has ≡ has_member self.now name.now descriptor.now) }
    {
        let member = Member::new(name, descriptor)?;
        Ok(self.pairs.contains(&member))
    }

    /// Adds a name with a descriptor to the set.
    pub(crate) fn put(&mut self, name: &Text, descriptor: &Text) -> Result<(), AllocError>
        ensures { OnOk result ((m d : List ℕ) → has_member self.new m d
            ≡ ((same_text m name.now && same_text d descriptor.now) || has_member self.old m d)) }
    {
        let member = Member::new(name, descriptor)?;
        self.pairs.insert(member)?;
        Ok(())
    }
}
