//! The entries of a class file by number.

ghost use Rattle.std.specs.Prelude.{◌≡◌, ◌++◌, None, Some, OnOk, OnErr};
ghost use Rattle.std.specs.Option.{option_copied, option_map};
ghost use Rattle.jvms_file.specs.ConstantPool.{entry, utf8_at, class_name_at, name_and_type_at, is_utf8, is_class, is_name_and_type, both};
ghost use Rattle.const_pool.specs.Writing.{pool_bytes};

use crate::writing::write_pool;
use jvms_file::class_file::Constant;
use shared_data::items::Items;
use std::alloc::{AllocError, Global};
use std::marker::Model;

/// The constant pool. Contracts see the list of its entries, in which entry number n is at place n - 1.
#[derive(Drop)]
pub struct Pool {
    entries: Items<Constant>,
}

impl Model for Pool {
    ghost use Rattle.std.specs.Prelude.{List};
    ghost use Rattle.jvms_file.specs.declared.class_file.Constant.{Constant};

    ghost Value = { List Constant };

    ghost view = { λ p. p.entries };
}

impl Pool {
    /// Creates the pool of these entries.
    pub fn of(entries: Items<Constant>) -> Self
        ensures { result ≡ entries }
    {
        Pool { entries }
    }

    /// Returns the entries in order.
    pub fn entries(&self) -> &Items<Constant>
        ensures { result.now ≡ self.now }
    {
        &self.entries
    }

    /// Returns the entries by value.
    pub fn into_entries(self) -> Items<Constant>
        ensures { result ≡ self }
    {
        self.entries
    }

    /// Returns the entry of a number, if there is one.
    pub fn entry(&self, number: u16) -> Option<&Constant>
        ensures { option_copied result ≡ entry self.now number }
    {
        if number == 0 {
            return None;
        }
        self.entries.as_slice().get(usize::from(number) - 1)
    }

    /// Returns the text of a Utf8 entry (JVMS 4.4.7).
    pub fn utf8(&self, number: u16) -> Option<&[u16]>
        ensures { option_map (λ t. t.now) result ≡ utf8_at self.now number }
    {
        match self.entry(number) {
            Some(Constant::Utf8(text)) => Some(text.as_slice()),
            _ => None,
        }
    }

    /// Decides whether a number is a Utf8 entry's.
    pub fn is_utf8(&self, number: u16) -> bool
        ensures { result ≡ is_utf8 self.now number }
    {
        self.utf8(number).is_some()
    }

    /// Decides whether a number is a Class entry's.
    pub fn is_class(&self, number: u16) -> bool
        ensures { result ≡ is_class self.now number }
    {
        matches!(self.entry(number), Some(Constant::Class { name: _ }))
    }

    /// Decides whether a number is a NameAndType entry's.
    pub fn is_name_and_type(&self, number: u16) -> bool
        ensures { result ≡ is_name_and_type self.now number }
    {
        matches!(
            self.entry(number),
            Some(Constant::NameAndType {
                name: _,
                descriptor: _
            })
        )
    }

    /// Returns the name of a Class entry (JVMS 4.4.1).
    pub fn class_name(&self, number: u16) -> Option<&[u16]>
        ensures { option_map (λ t. t.now) result ≡ class_name_at self.now number }
    {
        match self.entry(number) {
            Some(Constant::Class { name }) => self.utf8(*name),
            _ => None,
        }
    }

    /// Returns the name and the descriptor of a NameAndType entry (JVMS 4.4.6).
    pub fn name_and_type(&self, number: u16) -> Option<(&[u16], &[u16])>
        ensures { option_map (λ x. (x.0.now, x.1.now)) result ≡ name_and_type_at self.now number }
    {
        match self.entry(number) {
            Some(Constant::NameAndType { name, descriptor }) => {
                self.two_texts(*name, *descriptor)
            }
            _ => None,
        }
    }

    /// Returns the texts of two Utf8 entries, if both are.
    pub fn two_texts(&self, first: u16, second: u16) -> Option<(&[u16], &[u16])>
        ensures { option_map (λ x. (x.0.now, x.1.now)) result
            ≡ both (utf8_at self.now first) (utf8_at self.now second) }
    {
        match (self.utf8(first), self.utf8(second)) {
            (Some(a), Some(b)) => Some((a, b)),
            _ => None,
        }
    }

    /// Appends the pool to bytes: constant_pool_count, and the entries. Without memory for all of it nothing changes.
    pub fn write(&self, alloc: Global, out: &mut Vec<u8>) -> Result<(), AllocError>
        ensures ok { OnOk result (out.new.items ≡ out.old.items ++ pool_bytes self.now) }
        ensures kept { OnErr result (out.new.items ≡ out.old.items) }
    {
        write_pool(alloc, out, self.entries.as_slice())
    }
}
