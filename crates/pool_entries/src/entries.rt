//! The pool entries of a class that is being written.

ghost use Rattle.std.specs.Prelude.{◌≡◌, ◌≤◌, false, [], length, Some, IfOk};
ghost use Rattle.jvms_file.specs.declared.class_file.Constant.TheVariants as constant;
ghost use Rattle.jvms_file.specs.ConstantPool.{entry as entry_at, utf8_at, class_name_at, name_and_type_at};
ghost use Rattle.jvms_file.specs.Spelling.{IsNumbered};
ghost use Rattle.const_pool.specs.Interning.{constant_of, pool_of};
ghost use Rattle.pool_entries.specs.Entries.{IsShort, AreShort, IsProper, AreProper, Gives, constant_entry, text_entry, class_entry, string_entry, integer_entry, long_entry, name_and_type_entry};
ghost use Rattle.pool_entries.specs.Kept.{IsKept};
ghost use Rattle.pool_entries.specs.Named.{IsString};

use crate::fault::EntryFault;
use crate::text::is_short;
use const_pool::{Entry, Pool, PoolBuilder};
use std::alloc::{AllocError, Global};
use std::marker::Model;

/// The pool entries of a class that is being written. Each is there once, after those that it names, numbered from 1 by
/// first use. Contracts see the list of them.
///
/// A call that fails may have added some of the entries that it needed. Those that were there keep their numbers.
#[derive(Debug, Drop)]
pub struct Entries {
    builder: PoolBuilder,
}

impl Model for Entries {
    ghost use Rattle.std.specs.Prelude.{List};
    ghost use Rattle.const_pool.specs.declared.entry.Entry.{Entry};
    ghost use Rattle.const_pool.specs.Interning.{pool_of};
    ghost use Rattle.pool_entries.specs.Entries.{AreShort, AreProper};

    ghost Value = { List Entry };

    ghost view = { λ e. e.builder };

    ghost invariant = { λ e. AreShort (pool_of e.builder) × AreProper (pool_of e.builder) };
}

impl Entries {
    /// Creates a list without entries.
    pub fn new(alloc: Global) -> Self
        ensures { result ≡ [] }
    {
        Entries {
            builder: PoolBuilder::new(alloc),
        }
    }

    /// Returns the number of an entry, and appends the entry if it isn't there.
    pub(crate) fn constant(&mut self, entry: Entry) -> Result<u16, EntryFault>
        requires short { IsShort (constant_of entry) }
        requires proper { IsProper (constant_of entry) }
        ensures exact { Gives (constant_entry (pool_of self.old) (constant_of entry)) result
            (pool_of self.new) }
        ensures names { IfOk result
            (λ n. entry_at (pool_of self.new) n ≡ Some (constant_of entry)) }
        ensures kept { IsKept (pool_of self.old) (pool_of self.new) }
    {
        Ok(self.builder.intern(entry)?)
    }

    /// Returns the number of a text's entry, and appends it if it isn't there (JVMS 4.4.7).
    #[tactic(auto, unfolding(crate::specs::Entries::text_entry))]
    pub fn text(&mut self, alloc: Global, units: &[u16]) -> Result<u16, EntryFault>
        ensures exact { Gives (text_entry (pool_of self.old) units.now) result (pool_of self.new) }
        ensures names { IfOk result (λ n. utf8_at (pool_of self.new) n ≡ Some units.now) }
        ensures kept { IsKept (pool_of self.old) (pool_of self.new) }
    {
        if !is_short(units) {
            return Err(EntryFault::TooLong);
        }
        let text = units.to_vec(alloc)?;
        self.constant(Entry::Utf8(text))
    }

    /// Returns the number of the entry of a class, or of an array's descriptor, and appends it if it isn't there (JVMS
    /// 4.4.1).
    #[tactic(auto, unfolding(crate::specs::Entries::class_entry))]
    pub fn class(&mut self, alloc: Global, name: &[u16]) -> Result<u16, EntryFault>
        ensures exact { Gives (class_entry (pool_of self.old) name.now) result (pool_of self.new) }
        ensures names { IfOk result (λ n. class_name_at (pool_of self.new) n ≡ Some name.now) }
        ensures kept { IsKept (pool_of self.old) (pool_of self.new) }
    {
        let name = self.text(alloc, name)?;
        self.constant(Entry::Class { name })
    }

    /// Returns the number of a string's entry, and appends it if it isn't there (JVMS 4.4.3).
    #[tactic(auto, unfolding(crate::specs::Entries::string_entry))]
    pub fn string(&mut self, alloc: Global, units: &[u16]) -> Result<u16, EntryFault>
        ensures exact { Gives (string_entry (pool_of self.old) units.now) result
            (pool_of self.new) }
        ensures names { IfOk result (λ n. IsString (pool_of self.new) n units.now) }
        ensures kept { IsKept (pool_of self.old) (pool_of self.new) }
    {
        let text = self.text(alloc, units)?;
        self.constant(Entry::String { text })
    }

    /// Returns the number of an int's entry, and appends it if it isn't there (JVMS 4.4.4).
    pub fn integer(&mut self, number: i32) -> Result<u16, EntryFault>
        ensures exact { Gives (integer_entry (pool_of self.old) number) result (pool_of self.new) }
        ensures names { IfOk result
            (λ n. entry_at (pool_of self.new) n ≡ Some (constant.Integer number)) }
        ensures kept { IsKept (pool_of self.old) (pool_of self.new) }
    {
        self.constant(Entry::Integer(number))
    }

    /// Returns the number of a long's entry, and appends it if it isn't there. It takes the next number too (JVMS
    /// 4.4.5).
    pub fn long(&mut self, number: i64) -> Result<u16, EntryFault>
        ensures exact { Gives (long_entry (pool_of self.old) number) result (pool_of self.new) }
        ensures names { IfOk result
            (λ n. entry_at (pool_of self.new) n ≡ Some (constant.Long number)) }
        ensures kept { IsKept (pool_of self.old) (pool_of self.new) }
    {
        self.constant(Entry::Long(number))
    }

    /// Returns the pool of these entries. It can be written: constant_pool_count is at most 65535, and an unusable
    /// entry is after each long and double and nowhere else (JVMS 4.4.5). Each text has at most 65535 bytes, and its
    /// units have 16 bits.
    pub fn into_pool(self, alloc: Global) -> Result<Pool, AllocError>
        ensures exact { IfOk result (λ pool. pool ≡ pool_of self) }
        ensures numbered { IfOk result (IsNumbered false) }
        ensures few { IfOk result (λ pool. length pool ≤ 65534) }
        ensures short { IfOk result AreShort }
        ensures proper { IfOk result AreProper }
    {
        self.builder.into_pool(alloc)
    }
}
