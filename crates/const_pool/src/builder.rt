//! Builds a pool entry by entry.

ghost use Rattle.std.specs.Prelude.{◌≡◌, ◌≤◌, ℕ, false, [], ◌++◌, length, Some, IfSome, IfOk, OnOk};
ghost use Rattle.jvms_file.specs.declared.class_file.Constant.{Constant};
ghost use Rattle.jvms_file.specs.ConstantPool.{entry as entry_at};
ghost use Rattle.jvms_file.specs.Spelling.{IsNumbered};
ghost use Rattle.const_pool.specs.declared.builder.PoolFault.TheVariants.{Memory};
ghost use Rattle.const_pool.specs.Interning.{constant_of, width, constants_of, number_from, Interns, pool_of};

use crate::entry::Entry;
use crate::pool::Pool;
use indexmap::IndexMap;
use jvms_file::class_file::Constant;
use shared_data::items::Items;
use std::alloc::{AllocError, AllocFailed, Global};
use std::marker::Model;
use thiserror::Error;

/// The greatest constant_pool_count (JVMS 4.1): one more than the last number.
const MOST_COUNT: u16 = 65535;

/// The reason why an entry was not added to a pool.
#[derive(Debug, PartialEq, Eq, Drop, Error)]
pub enum PoolFault {
    /// A number above 65534 would be needed.
    #[error("the constant pool is full")]
    PoolFull,
    /// Memory ran out.
    #[error("out of memory")]
    Memory,
}

impl<T: Drop> From<AllocFailed<T>> for PoolFault {
    ghost from_gives = { λ _ fault. fault ≡ Memory };

    fn from(_error: AllocFailed<T>) -> PoolFault {
        PoolFault::Memory
    }
}

/// The entries of a pool that is being built, numbered from 1 by first use. Each is there once. Contracts see the list
/// of them.
#[derive(Debug, Drop)]
pub struct PoolBuilder {
    /// Each entry, with its number.
    numbers: IndexMap<Entry, u16>,
    /// The number of the next entry.
    next: u16,
}

impl Model for PoolBuilder {
    ghost use Rattle.std.specs.Prelude.{List};
    ghost use Rattle.indexmap.specs.IndexMap.{keys};
    ghost use Rattle.const_pool.specs.declared.entry.Entry.{Entry};
    ghost use Rattle.const_pool.specs.Interning.{IsNumbering};

    ghost Value = { List Entry };

    ghost view = { λ b. keys b.numbers };

    ghost invariant = { λ b. IsNumbering b.numbers.entries b.next };
}

/// Returns the count of numbers that an entry takes (JVMS 4.4.5).
fn width(entry: &Entry) -> u16
    ensures { result ≡ width entry.now }
{
    if entry.takes_two() { 2 } else { 1 }
}

/// Appends the constants of an entry: itself, and an unusable one after a long or a double.
fn push_constants(entries: &mut Items<Constant>, entry: Entry) -> Result<(), AllocError>
    ensures { OnOk result (entries.new ≡ entries.old ++ constants_of entry) }
{
    let two = entry.takes_two();
    entries.push(entry.into_constant())?;
    if two {
        entries.push(Constant::Unusable)?;
    }
    Ok(())
}

impl PoolBuilder {
    /// Creates a pool without entries.
    pub fn new(alloc: Global) -> Self
        ensures { result ≡ [] }
    {
        PoolBuilder {
            numbers: IndexMap::new(alloc),
            next: 1,
        }
    }

    /// Returns the number of an entry, if it is there.
    pub fn number(&self, entry: &Entry) -> Option<u16>
        ensures exact { result ≡ number_from 1 self.now entry.now }
        ensures names { IfSome result
            (λ n. entry_at (pool_of self.now) n ≡ Some (constant_of entry.now)) }
    {
        self.numbers.get(entry).copied()
    }

    /// Returns the number of an entry, and appends the entry if it isn't there (JVMS 4.4). On an error nothing changes.
    pub fn intern(&mut self, entry: Entry) -> Result<u16, PoolFault>
        ensures exact { Interns self.old entry result self.new }
        ensures names { IfOk result
            (λ n. entry_at (pool_of self.new) n ≡ Some (constant_of entry)) }
        ensures kept { (n : ℕ) (c : Constant) → entry_at (pool_of self.old) n ≡ Some c
            → entry_at (pool_of self.new) n ≡ Some c }
    {
        if let Some(number) = self.number(&entry) {
            return Ok(number);
        }
        let number = self.next;
        let width = width(&entry);
        if width > MOST_COUNT - number {
            return Err(PoolFault::PoolFull);
        }
        self.numbers.insert(entry, number)?;
        self.next = number + width;
        Ok(number)
    }

    /// Returns the constants of these entries, in order.
    fn into_constants(self, alloc: Global) -> Result<Items<Constant>, AllocError>
        ensures exact { IfOk result (λ constants. constants ≡ pool_of self) }
        ensures few { IfOk result (λ constants. length constants ≤ 65534) }
    {
        let mut constants = Items::new(alloc);
        for entry in self.numbers.into_keys() {
            push_constants(&mut constants, entry)?;
        }
        Ok(constants)
    }

    /// Returns the pool of these entries. It can be written: constant_pool_count is at most 65535, and an unusable
    /// entry is after each long and double and nowhere else (JVMS 4.4.5).
    pub fn into_pool(self, alloc: Global) -> Result<Pool, AllocError>
        ensures exact { IfOk result (λ pool. pool ≡ pool_of self) }
        ensures numbered { IfOk result (IsNumbered false) }
        ensures few { IfOk result (λ pool. length pool ≤ 65534) }
    {
        let constants = self.into_constants(alloc)?;
        Ok(Pool::of(constants))
    }
}
