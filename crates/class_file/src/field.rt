//! Fields and their attributes (JVMS 4.5, 4.7.2).

ghost use Rattle.std.specs.Prelude.{◌≡◌, is_some, not, codes, [], ◌∷◌, ◌++◌, List, OnOk};
ghost use Rattle.std.specs.List.{list_any};
ghost use Rattle.std.specs.Option.{option_copied};
ghost use Rattle.jvms_file.specs.Reading.{Gives};
ghost use Rattle.file_bytes.specs.Reading.{Finds};
ghost use Rattle.jvms_file.specs.Results.{part_list_onto};
ghost use Rattle.jvms_file.specs.Descriptors.{field_type_of};
ghost use Rattle.jvms_file.specs.Members.{takes_constant, is_constant_of, constant_value_at, is_constant_value, field_attribute_at, is_text_with, is_same_field, field_at, fields_at};
ghost use Rattle.jvms_file.specs.ConstantPool.{utf8_at, entry};
ghost use Rattle.jvms_file.specs.Names.{is_name};
ghost use Rattle.class_file.specs.Contents.{framed_by};
ghost use Rattle.class_file.specs.Seen.{AreFields};
ghost use Rattle.class_file.specs.Wanted.{text_wanted, field_attributes_at};

use crate::attribute::{is_named, kept_content};
use crate::content::{Content, content_at, want_all};
use crate::names::{BOOLEAN, BYTE, CHAR, CONSTANT_VALUE, DOUBLE, FLOAT, INT, LONG, SHORT, STRING};
use crate::seen::Seen;
use const_pool::{Pool, ScannedPool};
use file_bytes::{Part, parts_of, u2_at, want};
use jvms_file::class_file::{Constant, FieldAttribute, FieldInfo};
use jvms_file::fault::{ClassFault, ReadError};
use shared_data::items::Items;
use std::alloc::{AllocError, Global};

/// Decides whether a field of this descriptor may have this constant (JVMS table 4.7.2-A).
fn takes(descriptor: &[u16], constant: &Constant) -> bool
    ensures { result ≡ takes_constant descriptor.now constant.now }
{
    match constant {
        Constant::Integer(_) => matches!(descriptor, [INT] | [BYTE] | [CHAR] | [SHORT] | [BOOLEAN]),
        Constant::Long(_) => matches!(descriptor, [LONG]),
        Constant::Float(_) => matches!(descriptor, [FLOAT]),
        Constant::Double(_) => matches!(descriptor, [DOUBLE]),
        Constant::String { text: _ } => descriptor == STRING.as_slice(),
        _ => false,
    }
}

/// Decides whether a field's descriptor accepts the constant of an entry.
fn is_its_constant(pool: &Pool, descriptor: u16, value: u16) -> bool
    ensures { result ≡ is_constant_of (utf8_at pool.now descriptor) (entry pool.now value) }
{
    match (pool.utf8(descriptor), pool.entry(value)) {
        (Some(text), Some(constant)) => takes(text, constant),
        _ => false,
    }
}

/// Reads the content of a ConstantValue attribute (JVMS 4.7.2), and returns it with the bytes after the attribute.
fn constant_value<'a>(
    pool: &Pool,
    descriptor: u16,
    name: u16,
    content: Content<'a>,
) -> Result<(FieldAttribute, &'a [u8]), ClassFault>
    ensures { Finds (λ x. (x.0, x.1.now)) result
        (constant_value_at pool.now descriptor name (framed_by content.entry)) }
{
    let (value, rest) = u2_at(content.cut, content.bytes)?;
    want(is_its_constant(pool, descriptor, value), ClassFault::Index)?;
    want_all(content, rest)?;
    Ok((FieldAttribute::ConstantValue { name, value }, content.after))
}

/// Decides whether a ConstantValue is among attributes.
fn has_constant_value(attributes: &[FieldAttribute]) -> bool
    ensures { result ≡ list_any is_constant_value attributes.now }
{
    attributes.iter().any(|a| matches!(a, FieldAttribute::ConstantValue { name: _, value: _ }))
}

/// The reader of attributes of a field with this descriptor in a class with this pool. `cut` is the fault of missing
/// bytes.
#[derive(Clone, Copy)]
struct Attributes<'p> {
    pool: &'p Pool,
    cut: ClassFault,
    descriptor: u16,
}

impl Part<FieldAttribute> for Attributes<'_> {
    ghost at = { λ a. field_attribute_at a.pool.now a.cut a.descriptor };

    fn part_at<'a>(
        &self,
        alloc: Global,
        seen: &[FieldAttribute],
        bytes: &'a [u8],
    ) -> Result<(FieldAttribute, &'a [u8]), ReadError> {
        let (name, rest) = u2_at(self.cut, bytes)?;
        want(self.pool.is_utf8(name), ClassFault::Index)?;
        if is_named(self.pool, name, &CONSTANT_VALUE) {
            want(!has_constant_value(seen), ClassFault::RepeatedAttribute)?;
            let content = content_at(self.cut, rest)?;
            Ok(constant_value(self.pool, self.descriptor, name, content)?)
        } else {
            let (kept, behind) = kept_content(alloc, self.cut, name, rest)?;
            Ok((FieldAttribute::Kept(kept), behind))
        }
    }
}

/// Tests that a number is that of a field's name.
fn want_name(pool: &ScannedPool, number: u16) -> Result<(), ClassFault>
    ensures { Finds (λ x. x) result (text_wanted is_name pool.now number) }
{
    match pool.forms(number) {
        None => Err(ClassFault::Index),
        Some(forms) => want(forms.name, ClassFault::Descriptor),
    }
}

/// Tests that a number is that of a field's descriptor.
fn want_descriptor(pool: &ScannedPool, number: u16) -> Result<(), ClassFault>
    ensures { Finds (λ x. x) result
        (text_wanted (λ text. is_some (field_type_of text)) pool.now number) }
{
    match pool.forms(number) {
        None => Err(ClassFault::Index),
        Some(forms) => want(forms.field_descriptor, ClassFault::Descriptor),
    }
}

/// Reads attributes_count and the attributes of a field, and returns them with the bytes after them.
fn attributes_at<'a>(
    alloc: Global,
    pool: &Pool,
    cut: ClassFault,
    descriptor: u16,
    bytes: &'a [u8],
) -> Result<(Items<FieldAttribute>, &'a [u8]), ReadError>
    ensures { Gives (λ x. (x.0, x.1.now)) result
        (field_attributes_at pool.now cut descriptor bytes.now) }
{
    let (count, rest) = u2_at(cut, bytes)?;
    let attributes = Attributes {
        pool,
        cut,
        descriptor,
    };
    parts_of(alloc, &attributes, usize::from(count), rest)
}

/// Fields that were read, with their names and descriptors.
#[derive(Drop)]
struct Fields {
    items: Items<FieldInfo>,
    seen: Seen,
}

impl Fields {
    /// Creates a list without fields.
    fn new(alloc: Global, pool: &ScannedPool) -> Self
        ensures items { result.items ≡ [] }
        ensures seen { AreFields pool.now result.seen result.items }
    {
        Fields {
            items: Items::new(alloc),
            seen: Seen::new(alloc),
        }
    }

    /// Decides whether one of the fields has this name and this descriptor.
    fn has(&self, pool: &ScannedPool, name: u16, descriptor: u16) -> bool
        requires { AreFields pool.now self.now.seen self.now.items }
        ensures { result ≡ list_any (is_same_field pool.now name descriptor) self.now.items }
    {
        self.seen.has(pool, name, descriptor)
    }

    /// Appends a field.
    #[tactic(auto, using(crate::proofs::SeenMembers::field_more))]
    fn push(&mut self, pool: &ScannedPool, field: FieldInfo) -> Result<(), AllocError>
        requires { AreFields pool.now self.old.seen self.old.items }
        ensures items { OnOk result (self.new.items ≡ self.old.items ++ field ∷ []) }
        ensures seen { OnOk result (AreFields pool.now self.new.seen self.new.items) }
    {
        self.seen.put(pool, field.name, field.descriptor)?;
        self.items.push(field)?;
        Ok(())
    }
}

/// Reads the next field, after those in `before`, and returns it with the bytes after it.
#[tactic(auto, unfolding(jvms_file::specs::Members::field_at))]
fn field_at<'a>(
    alloc: Global,
    pool: &ScannedPool,
    cut: ClassFault,
    before: &Fields,
    bytes: &'a [u8],
) -> Result<(FieldInfo, &'a [u8]), ReadError>
    requires { AreFields pool.now before.now.seen before.now.items }
    ensures { Gives (λ x. (x.0, x.1.now)) result
        (field_at pool.now cut before.now.items bytes.now) }
{
    let (access, rest) = u2_at(cut, bytes)?;
    let (name, rest) = u2_at(cut, rest)?;
    want_name(pool, name)?;
    let (descriptor, rest) = u2_at(cut, rest)?;
    want_descriptor(pool, descriptor)?;
    want(
        !before.has(pool, name, descriptor),
        ClassFault::RepeatedMember,
    )?;
    let (attributes, behind) = attributes_at(alloc, pool.pool(), cut, descriptor, rest)?;
    let field = FieldInfo {
        access,
        name,
        descriptor,
        attributes,
    };
    Ok((field, behind))
}

/// Reads `count` fields, and returns them with the bytes after them.
fn fields_of<'a>(
    alloc: Global,
    pool: &ScannedPool,
    cut: ClassFault,
    count: usize,
    bytes: &'a [u8],
) -> Result<(Items<FieldInfo>, &'a [u8]), ReadError>
    ensures { Gives (λ x. (x.0, x.1.now)) result
        (part_list_onto (field_at pool.now cut) [] count bytes.now) }
{
    let mut fields = Fields::new(alloc, pool);
    let mut rest = bytes;
    let mut left = count;
    while left > 0 {
        let (field, behind) = match field_at(alloc, pool, cut, &fields, rest) {
            Ok(read) => read,
            Err(error) => return Err(error),
        };
        fields.push(pool, field)?;
        rest = behind;
        left -= 1;
    }
    Ok((fields.items, rest))
}

/// Reads fields_count and the fields, and returns them with the bytes after them.
pub(crate) fn fields_at<'a>(
    alloc: Global,
    pool: &ScannedPool,
    cut: ClassFault,
    bytes: &'a [u8],
) -> Result<(Items<FieldInfo>, &'a [u8]), ReadError>
    ensures { Gives (λ x. (x.0, x.1.now)) result (fields_at pool.now cut bytes.now) }
{
    let (count, rest) = u2_at(cut, bytes)?;
    fields_of(alloc, pool, cut, usize::from(count), rest)
}
