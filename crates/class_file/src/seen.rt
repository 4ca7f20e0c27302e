//! The names and descriptors of the members of a class that were read. No two members may share both (JVMS 4.5, 4.6).

ghost use Rattle.std.specs.Prelude.{◌≡◌, ℕ, List, false, ◌&&◌, ◌||◌, OnOk};
ghost use Rattle.jvms_file.specs.declared.class_file.Constant.{Constant};
ghost use Rattle.jvms_file.specs.ConstantPool.{both};
ghost use Rattle.jvms_file.specs.Members.{same_entry_text};
ghost use Rattle.const_pool.specs.Texts.{canonical};
ghost use Rattle.class_file.specs.Seen.{is_seen};

use const_pool::ScannedPool;
use std::alloc::{AllocError, Global};
use std::collections::BTreeSet;

/// The names and descriptors of members, as the canonical numbers of their texts.
#[derive(Drop)]
pub(crate) struct Seen {
    pairs: BTreeSet<(usize, usize)>,
}

impl Seen {
    /// Creates an empty set.
    pub(crate) fn new(alloc: Global) -> Self
        ensures { (pool : List Constant) (name descriptor : ℕ)
            → is_seen pool result name descriptor ≡ false }
    {
        Seen {
            pairs: BTreeSet::new(alloc),
        }
    }

    /// Returns the canonical numbers of a name and a descriptor, if both are texts.
    fn pair(pool: &ScannedPool, name: u16, descriptor: u16) -> Option<(usize, usize)>
        ensures { result ≡ both (canonical pool.now name) (canonical pool.now descriptor) }
    {
        match (pool.canonical(name), pool.canonical(descriptor)) {
            (Some(name), Some(descriptor)) => Some((name, descriptor)),
            _ => None,
        }
    }

    /// Decides whether a member has this name and this descriptor.
    pub(crate) fn has(&self, pool: &ScannedPool, name: u16, descriptor: u16) -> bool
        ensures { result ≡ is_seen pool.now self.now name descriptor }
    {
        match Seen::pair(pool, name, descriptor) {
            Some(pair) => self.pairs.contains(&pair),
            None => false,
        }
    }

    /// Adds a member's name and descriptor.
    pub(crate) fn put(
        &mut self,
        pool: &ScannedPool,
        name: u16,
        descriptor: u16,
    ) -> Result<(), AllocError>
        ensures { OnOk result ((m n : ℕ) → is_seen pool.now self.new m n
            ≡ ((same_entry_text pool.now name m && same_entry_text pool.now descriptor n)
            || is_seen pool.now self.old m n)) }
    {
        if let Some(pair) = Seen::pair(pool, name, descriptor) {
            self.pairs.insert(pair)?;
        }
        Ok(())
    }
}
