//! Writes and parses members: the class, the name and the descriptor, separated by dots.

ghost use Rattle.std.specs.Prelude.{◌≡◌, ◌++◌, OnOk, OnErr, IfOk};
ghost use Rattle.std.specs.String.{string_bytes};
ghost use Rattle.escapes.specs.Behind.{IsAppended};
ghost use Rattle.escapes.specs.Keys.{IsMember, IsFieldKey, IsMethodKey, member_text, field_text, method_text};
ghost use Rattle.escapes.specs.Readings.{IsReadAs};

use crate::cuts::cut_twice;
use crate::name::{name_of, put_name};
use crate::sort::NameSort;
use jvms_program::key::{FieldKey, MethodKey};
use shared_data::shared::Text;
use std::alloc::{AllocError, Global};

const DOT: u8 = b'.';

/// Appends a member's class, name and descriptor. On an error a part of them may have been appended.
fn put_parts(
    out: &mut String,
    class: &[u16],
    name: &[u16],
    descriptor: &[u16],
) -> Result<(), AllocError>
    ensures exact { OnOk result (string_bytes out.new
        ≡ string_bytes out.old ++ member_text class.now name.now descriptor.now) }
    ensures appended { OnErr result (IsAppended (string_bytes out.old) (string_bytes out.new)) }
{
    put_name(out, class)?;
    out.push_str(".")?;
    put_name(out, name)?;
    out.push_str(".")?;
    put_name(out, descriptor)
}

/// Appends a member: `C.m.D`.
pub fn put_member(
    out: &mut String,
    class: &[u16],
    name: &[u16],
    descriptor: &[u16],
) -> Result<(), AllocError>
    ensures exact { OnOk result (string_bytes out.new
        ≡ string_bytes out.old ++ member_text class.now name.now descriptor.now) }
    // Without memory nothing changes.
    ensures kept { OnErr result (string_bytes out.new ≡ string_bytes out.old) }
{
    let before = out.len();
    let put = put_parts(out, class, name, descriptor);
    if put.is_err() {
        out.truncate(before);
    }
    put
}

/// Appends a field: `C.x.D`.
pub fn put_field(out: &mut String, field: &FieldKey) -> Result<(), AllocError>
    ensures exact { OnOk result
        (string_bytes out.new ≡ string_bytes out.old ++ field_text field.now) }
    // Without memory nothing changes.
    ensures kept { OnErr result (string_bytes out.new ≡ string_bytes out.old) }
{
    put_member(
        out,
        field.class.as_slice(),
        field.name.as_slice(),
        field.descriptor.as_slice(),
    )
}

/// Appends a method: `C.m.D`.
pub fn put_method(out: &mut String, method: &MethodKey) -> Result<(), AllocError>
    ensures exact { OnOk result
        (string_bytes out.new ≡ string_bytes out.old ++ method_text method.now) }
    // Without memory nothing changes.
    ensures kept { OnErr result (string_bytes out.new ≡ string_bytes out.old) }
{
    put_member(
        out,
        method.class.as_slice(),
        method.name.as_slice(),
        method.descriptor.as_slice(),
    )
}

/// Parses the class, the name and the descriptor of a member, the last two of these sorts. Returns `None` if the text
/// is no member's.
fn member_of(
    alloc: Global,
    name_sort: NameSort,
    descriptor_sort: NameSort,
    text: &[u8],
) -> Result<Option<(Text, Text, Text)>, AllocError>
    ensures { IfOk result (IsReadAs (λ x. IsMember name_sort descriptor_sort x.0 x.1 x.2)
        (λ x. member_text x.0 x.1 x.2) text.now) }
{
    let Some((class, name, descriptor)) = cut_twice(text, DOT) else {
        return Ok(None);
    };
    let Some(class) = name_of(alloc, NameSort::Class, class)? else {
        return Ok(None);
    };
    let Some(name) = name_of(alloc, name_sort, name)? else {
        return Ok(None);
    };
    let Some(descriptor) = name_of(alloc, descriptor_sort, descriptor)? else {
        return Ok(None);
    };
    Ok(Some((class, name, descriptor)))
}

/// Parses a field `C.x.D`. Returns `None` if the text is none.
pub fn field_of(alloc: Global, text: &[u8]) -> Result<Option<FieldKey>, AllocError>
    ensures { IfOk result (IsReadAs IsFieldKey field_text text.now) }
{
    match member_of(alloc, NameSort::Field, NameSort::FieldDescriptor, text)? {
        Some((class, name, descriptor)) => Ok(Some(FieldKey {
            class,
            name,
            descriptor,
        })),
        None => Ok(None),
    }
}

/// Parses a method `C.m.D`. Returns `None` if the text is none.
pub fn method_of(alloc: Global, text: &[u8]) -> Result<Option<MethodKey>, AllocError>
    ensures { IfOk result (IsReadAs IsMethodKey method_text text.now) }
{
    match member_of(alloc, NameSort::Method, NameSort::MethodDescriptor, text)? {
        Some((class, name, descriptor)) => Ok(Some(MethodKey {
            class,
            name,
            descriptor,
        })),
        None => Ok(None),
    }
}
