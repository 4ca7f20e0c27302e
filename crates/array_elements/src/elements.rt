//! The elements of arrays.

ghost use Rattle.std.specs.Prelude.{◌≡◌, true, IfOk, IfSome, IsSome, IsTrue, Some, length, map, pos, replicate, slice_get, slice_set};
ghost use Rattle.jvms_file.specs.Numbers.{narrowed_int};
ghost use Rattle.jvms_file.specs.declared.insn.Narrow.TheVariants as narrow;
ghost use Rattle.jvms_file.specs.declared.descriptor.FieldType.{FieldType};
ghost use Rattle.jvms_machine.specs.Arrays.{serves};
ghost use Rattle.jvms_machine.specs.Heap.{stored_as};
ghost use Rattle.jvms_machine.specs.declared.value.Value.TheVariants as value;
ghost use Rattle.array_elements.specs.declared.kind.Kind.TheVariants as kind;
ghost use Rattle.array_elements.specs.Kinds.{IsOfKind, first_of, kind_of};
ghost use Rattle.array_elements.specs.Elements.{values_of, elements_kind, reference_value};

use crate::kind::Kind;
use jvms_file::insn::ArrayKind;
use jvms_machine::value::Value;
use std::alloc::{AllocError, Global};

/// The elements of an array, by their kind. A reference is stored as its number, and null as 0.
#[derive(Debug, Drop)]
pub enum Elements {
    Ints(Vec<i32>),
    Bytes(Vec<i8>),
    Booleans(Vec<u8>),
    Chars(Vec<u16>),
    Shorts(Vec<i16>),
    Longs(Vec<i64>),
    References(Vec<u32>),
    /// Elements without a value. Only their number is stored.
    Nothing(u32),
}

/// Returns a byte: the low eight bits of an int.
#[inline(always)]
fn byte(n: i32) -> i8
    ensures { result ≡ narrowed_int narrow.Byte n }
{
    let low = (n.rem_euclid(1 << 8) as u8).cast_signed();
    low
}

/// Returns a short: the low sixteen bits of an int.
#[inline(always)]
fn short(n: i32) -> i16
    ensures { result ≡ narrowed_int narrow.Short n }
{
    let low = (n.rem_euclid(1 << 16) as u16).cast_signed();
    low
}

/// Returns a char: the low sixteen bits of an int.
#[inline(always)]
fn unsigned_short(n: i32) -> u16
    ensures { pos result ≡ narrowed_int narrow.Char n }
{
    n.rem_euclid(1 << 16) as u16
}

/// Returns a boolean: the lowest bit of an int.
#[inline(always)]
fn bit(n: i32) -> u8
    ensures { pos result ≡ narrowed_int narrow.Boolean n }
{
    n.rem_euclid(2) as u8
}

/// Returns the reference with this number, or null for 0.
#[inline(always)]
fn reference_value(number: u32) -> Value
    ensures { result ≡ reference_value number }
{
    if number == 0 {
        Value::Null
    } else {
        Value::Reference(number)
    }
}

/// Stores an item at a place, if there is such a place.
#[inline(always)]
pub fn put<T: Copy>(items: &mut Vec<T>, index: usize, item: T)
    ensures { items.new.items ≡ slice_set items.old.items index item }
{
    if index < items.len() {
        items[index] = item;
    }
}

/// Stores an int at an index, if there is an element.
#[inline(always)]
#[tactic(auto, using(crate::proofs::ElementLaws::int_put))]
fn put_int(items: &mut Vec<i32>, index: usize, new: Value)
    requires { IsOfKind kind.Int new }
    ensures { map value.Int items.new.items ≡ slice_set (map value.Int items.old.items) index new }
{
    if let Value::Int(n) = new {
        put(items, index, n);
    }
}

/// Stores a byte at an index, if there is an element.
#[inline(always)]
#[tactic(auto, using(crate::proofs::ElementLaws::narrowed_put))]
fn put_byte(items: &mut Vec<i8>, index: usize, new: Value)
    requires { IsOfKind kind.Byte new }
    ensures { map value.Int items.new.items ≡ slice_set (map value.Int items.old.items) index new }
{
    if let Value::Int(n) = new {
        put(items, index, byte(n));
    }
}

/// Stores a boolean at an index, if there is an element.
#[inline(always)]
#[tactic(auto, using(crate::proofs::ElementLaws::natural_put))]
fn put_boolean(items: &mut Vec<u8>, index: usize, new: Value)
    requires { IsOfKind kind.Boolean new }
    ensures { map (λ n. value.Int (pos n)) items.new.items
        ≡ slice_set (map (λ n. value.Int (pos n)) items.old.items) index new }
{
    if let Value::Int(n) = new {
        put(items, index, bit(n));
    }
}

/// Stores a char at an index, if there is an element.
#[inline(always)]
#[tactic(auto, using(crate::proofs::ElementLaws::natural_put))]
fn put_char(items: &mut Vec<u16>, index: usize, new: Value)
    requires { IsOfKind kind.Char new }
    ensures { map (λ n. value.Int (pos n)) items.new.items
        ≡ slice_set (map (λ n. value.Int (pos n)) items.old.items) index new }
{
    if let Value::Int(n) = new {
        put(items, index, unsigned_short(n));
    }
}

/// Stores a short at an index, if there is an element.
#[inline(always)]
#[tactic(auto, using(crate::proofs::ElementLaws::narrowed_put))]
fn put_short(items: &mut Vec<i16>, index: usize, new: Value)
    requires { IsOfKind kind.Short new }
    ensures { map value.Int items.new.items ≡ slice_set (map value.Int items.old.items) index new }
{
    if let Value::Int(n) = new {
        put(items, index, short(n));
    }
}

/// Stores a long at an index, if there is an element.
#[inline(always)]
#[tactic(auto, using(crate::proofs::ElementLaws::long_put))]
fn put_long(items: &mut Vec<i64>, index: usize, new: Value)
    requires { IsOfKind kind.Long new }
    ensures { map value.Long items.new.items
        ≡ slice_set (map value.Long items.old.items) index new }
{
    if let Value::Long(n) = new {
        put(items, index, n);
    }
}

/// Stores a reference or null at an index, if there is an element.
#[inline(always)]
#[tactic(auto, using(crate::proofs::ElementLaws::null_put, crate::proofs::ElementLaws::reference_put))]
fn put_reference(items: &mut Vec<u32>, index: usize, new: Value)
    requires { IsOfKind kind.Reference new }
    ensures { map reference_value items.new.items
        ≡ slice_set (map reference_value items.old.items) index new }
{
    match new {
        Value::Null => put(items, index, 0),
        Value::Reference(r) => put(items, index, r),
        _ => {}
    }
}

impl Elements {
    /// Creates `length` elements of a kind, each with the kind's first value.
    #[tactic(auto, using(crate::proofs::Lists::map_replicate))]
    pub fn new(alloc: Global, kind: Kind, length: u32) -> Result<Elements, AllocError>
        ensures values { IfOk result (λ e. values_of e ≡ replicate length (first_of kind)) }
        ensures kind { IfOk result (λ e. elements_kind e ≡ kind) }
    {
        let count = length as usize;
        match kind {
            Kind::Int => Ok(Elements::Ints(vec![in alloc; 0; count]?)),
            Kind::Byte => Ok(Elements::Bytes(vec![in alloc; 0; count]?)),
            Kind::Boolean => Ok(Elements::Booleans(vec![in alloc; 0; count]?)),
            Kind::Char => Ok(Elements::Chars(vec![in alloc; 0; count]?)),
            Kind::Short => Ok(Elements::Shorts(vec![in alloc; 0; count]?)),
            Kind::Long => Ok(Elements::Longs(vec![in alloc; 0; count]?)),
            Kind::Reference => Ok(Elements::References(vec![in alloc; 0; count]?)),
            Kind::Nothing => Ok(Elements::Nothing(length)),
        }
    }

    /// Copies the elements.
    pub fn copy(&self, alloc: Global) -> Result<Elements, AllocError>
        ensures values { IfOk result (λ e. values_of e ≡ values_of self.now) }
        ensures kind { IfOk result (λ e. elements_kind e ≡ elements_kind self.now) }
    {
        Ok(match self {
            Elements::Ints(items) => Elements::Ints(Vec::from_slice(alloc, items.as_slice())?),
            Elements::Bytes(items) => Elements::Bytes(Vec::from_slice(alloc, items.as_slice())?),
            Elements::Booleans(items) => {
                Elements::Booleans(Vec::from_slice(alloc, items.as_slice())?)
            }
            Elements::Chars(items) => Elements::Chars(Vec::from_slice(alloc, items.as_slice())?),
            Elements::Shorts(items) => Elements::Shorts(Vec::from_slice(alloc, items.as_slice())?),
            Elements::Longs(items) => Elements::Longs(Vec::from_slice(alloc, items.as_slice())?),
            Elements::References(items) => {
                Elements::References(Vec::from_slice(alloc, items.as_slice())?)
            }
            Elements::Nothing(count) => Elements::Nothing(*count),
        })
    }

    /// Returns true only if all elements and their kind are the same.
    #[tactic(auto, using(crate::proofs::SameLaws::same_ints, crate::proofs::SameLaws::same_naturals, crate::proofs::SameLaws::same_longs, crate::proofs::SameLaws::same_references))]
    pub fn is_same(&self, other: &Elements) -> bool
        ensures values { result ≡ true → values_of self.now ≡ values_of other.now }
        ensures kind { result ≡ true → elements_kind self.now ≡ elements_kind other.now }
    {
        match (self, other) {
            (Elements::Ints(items), Elements::Ints(others)) => items == others,
            (Elements::Bytes(items), Elements::Bytes(others)) => items == others,
            (Elements::Booleans(items), Elements::Booleans(others)) => items == others,
            (Elements::Chars(items), Elements::Chars(others)) => items == others,
            (Elements::Shorts(items), Elements::Shorts(others)) => items == others,
            (Elements::Longs(items), Elements::Longs(others)) => items == others,
            (Elements::References(items), Elements::References(others)) => items == others,
            (Elements::Nothing(count), Elements::Nothing(others)) => count == others,
            _ => false,
        }
    }

    /// Returns the number of elements.
    #[inline(always)]
    pub fn len(&self) -> usize
        ensures { result ≡ length (values_of self.now) }
    {
        match self {
            Elements::Ints(items) => items.len(),
            Elements::Bytes(items) => items.len(),
            Elements::Booleans(items) => items.len(),
            Elements::Chars(items) => items.len(),
            Elements::Shorts(items) => items.len(),
            Elements::Longs(items) => items.len(),
            Elements::References(items) => items.len(),
            Elements::Nothing(count) => *count as usize,
        }
    }

    /// Returns the element at an index.
    #[inline(always)]
    pub fn get(&self, index: usize) -> Option<Value>
        ensures { result ≡ slice_get (values_of self.now) index }
    {
        match self {
            Elements::Ints(items) => Some(Value::Int(*items.get(index)?)),
            Elements::Bytes(items) => Some(Value::Int(i32::from(*items.get(index)?))),
            Elements::Booleans(items) => Some(Value::Int(i32::from(*items.get(index)?))),
            Elements::Chars(items) => Some(Value::Int(i32::from(*items.get(index)?))),
            Elements::Shorts(items) => Some(Value::Int(i32::from(*items.get(index)?))),
            Elements::Longs(items) => Some(Value::Long(*items.get(index)?)),
            Elements::References(items) => Some(reference_value(*items.get(index)?)),
            Elements::Nothing(count) => {
                if index < *count as usize {
                    Some(Value::Unset)
                } else {
                    None
                }
            }
        }
    }

    /// Stores a value at an index, if there is an element.
    pub fn put(&mut self, index: usize, value: Value)
        requires { IsOfKind (elements_kind self.old) value }
        ensures values { values_of self.new ≡ slice_set (values_of self.old) index value }
        ensures kind { elements_kind self.new ≡ elements_kind self.old }
    {
        match self {
            Elements::Ints(items) => put_int(items, index, value),
            Elements::Bytes(items) => put_byte(items, index, value),
            Elements::Booleans(items) => put_boolean(items, index, value),
            Elements::Chars(items) => put_char(items, index, value),
            Elements::Shorts(items) => put_short(items, index, value),
            Elements::Longs(items) => put_long(items, index, value),
            Elements::References(items) => put_reference(items, index, value),
            Elements::Nothing(_) => {}
        }
    }

    /// Returns true only if an instruction of a kind loads and stores these elements. That of bytes does so for
    /// booleans too.
    #[inline(always)]
    #[tactic(auto, using(crate::proofs::KindLaws::ints_are_served, crate::proofs::KindLaws::bytes_are_served, crate::proofs::KindLaws::booleans_are_served, crate::proofs::KindLaws::chars_are_served, crate::proofs::KindLaws::shorts_are_served, crate::proofs::KindLaws::longs_are_served, crate::proofs::KindLaws::references_are_served))]
    fn are_served(&self, kind: ArrayKind) -> bool
        ensures { (t : FieldType) → elements_kind self.now ≡ kind_of t → IsTrue result
            → serves kind t ≡ true }
    {
        match (self, kind) {
            (Elements::Ints(_), ArrayKind::Int)
            | (Elements::Bytes(_) | Elements::Booleans(_), ArrayKind::Byte)
            | (Elements::Chars(_), ArrayKind::Char)
            | (Elements::Shorts(_), ArrayKind::Short)
            | (Elements::Longs(_), ArrayKind::Long)
            | (Elements::References(_), ArrayKind::Reference) => true,
            _ => false,
        }
    }

    /// Returns the value that is stored for an int if the elements are ints, bytes, booleans, chars or shorts, and for
    /// a long if they are longs.
    #[inline(always)]
    #[tactic(auto, using(crate::proofs::KindLaws::int_is_kept, crate::proofs::KindLaws::byte_is_kept, crate::proofs::KindLaws::boolean_is_kept, crate::proofs::KindLaws::char_is_kept, crate::proofs::KindLaws::short_is_kept))]
    fn kept(&self, value: Value) -> Option<Value>
        ensures { (t : FieldType) → elements_kind self.now ≡ kind_of t
            → IfSome result (λ kept. stored_as t value ≡ kept) }
    {
        match (self, value) {
            (Elements::Ints(_), Value::Int(n)) => Some(Value::Int(n)),
            (Elements::Bytes(_), Value::Int(n)) => Some(Value::Int(i32::from(byte(n)))),
            (Elements::Booleans(_), Value::Int(n)) => Some(Value::Int(i32::from(bit(n)))),
            (Elements::Chars(_), Value::Int(n)) => Some(Value::Int(i32::from(unsigned_short(n)))),
            (Elements::Shorts(_), Value::Int(n)) => Some(Value::Int(i32::from(short(n)))),
            (Elements::Longs(_), Value::Long(n)) => Some(Value::Long(n)),
            _ => None,
        }
    }

    /// Returns the element at an index, if an instruction of a kind loads these elements.
    #[inline(always)]
    #[tactic(auto, using(crate::proofs::KindLaws::loads))]
    pub fn loaded(&self, kind: ArrayKind, index: usize) -> Option<Value>
        ensures { (t : FieldType) → elements_kind self.now ≡ kind_of t → IfSome result
            (λ v. (serves kind t ≡ true) × (slice_get (values_of self.now) index ≡ Some v)) }
    {
        if !self.are_served(kind) {
            return None;
        }
        self.get(index)
    }

    /// Returns the value that is stored for an int or a long at an index, if an instruction of a kind stores such
    /// elements.
    #[inline(always)]
    #[tactic(auto, using(crate::proofs::KindLaws::stores))]
    pub fn stored(&self, kind: ArrayKind, index: usize, value: Value) -> Option<Value>
        ensures { (t : FieldType) → elements_kind self.now ≡ kind_of t
            → IfSome result (λ kept. (serves kind t ≡ true)
            × (IsSome (slice_get (values_of self.now) index) × (stored_as t value ≡ kept))) }
    {
        if !self.are_served(kind) || self.get(index).is_none() {
            return None;
        }
        self.kept(value)
    }
}
