//! Fields and methods (JVMS 4.5, 4.6).

ghost use Rattle.std.specs.Prelude.{◌≡◌, ◌++◌, OnOk};
ghost use Rattle.class_file.specs.Writing.{counted_bytes, member_bytes, field_attribute_bytes, field_bytes, method_attribute_bytes, method_bytes};

use crate::writing::attribute::{write_framed, write_kept, write_numbers};
use crate::writing::code::write_code;
use file_bytes::{write_count, write_u2};
use jvms_file::class_file::{FieldAttribute, FieldInfo, MethodAttribute, MethodInfo};
use std::alloc::{AllocError, Global};

/// Appends the access flags, the name and the descriptor of a member.
fn write_member(
    out: &mut Vec<u8>,
    access: u16,
    name: u16,
    descriptor: u16,
) -> Result<(), AllocError>
    ensures { OnOk result (out.new.items ≡ out.old.items ++ member_bytes access name descriptor) }
{
    write_u2(out, access)?;
    write_u2(out, name)?;
    write_u2(out, descriptor)
}

/// Appends an attribute of a field.
#[tactic(auto, unfolding(crate::specs::Writing::field_attribute_bytes, jvms_file::specs::Spelling::u2))]
fn write_field_attribute(out: &mut Vec<u8>, attribute: &FieldAttribute) -> Result<(), AllocError>
    ensures { OnOk result (out.new.items ≡ out.old.items ++ field_attribute_bytes attribute.now) }
{
    match attribute {
        FieldAttribute::ConstantValue { name, value } => {
            write_framed(out, *name, &value.to_be_bytes())
        }
        FieldAttribute::Kept(kept) => write_kept(out, kept),
    }
}

/// Appends attributes_count and the attributes of a field.
fn write_field_attributes(
    out: &mut Vec<u8>,
    attributes: &[FieldAttribute],
) -> Result<(), AllocError>
    ensures { OnOk result
        (out.new.items ≡ out.old.items ++ counted_bytes field_attribute_bytes attributes.now) }
{
    write_count(out, attributes.len())?;
    for attribute in attributes {
        write_field_attribute(out, attribute)?;
    }
    Ok(())
}

/// Appends a field.
#[tactic(auto, unfolding(crate::specs::Writing::field_bytes))]
fn write_field(out: &mut Vec<u8>, field: &FieldInfo) -> Result<(), AllocError>
    ensures { OnOk result (out.new.items ≡ out.old.items ++ field_bytes field.now) }
{
    write_member(out, field.access, field.name, field.descriptor)?;
    write_field_attributes(out, field.attributes.as_slice())
}

/// Appends fields_count and the fields.
pub(crate) fn write_fields(out: &mut Vec<u8>, fields: &[FieldInfo]) -> Result<(), AllocError>
    ensures { OnOk result (out.new.items ≡ out.old.items ++ counted_bytes field_bytes fields.now) }
{
    write_count(out, fields.len())?;
    for field in fields {
        write_field(out, field)?;
    }
    Ok(())
}

/// Appends an attribute of a method. The length of its content comes before it, so the content is written to a buffer
/// of its own first.
#[tactic(auto, unfolding(crate::specs::Writing::method_attribute_bytes))]
fn write_method_attribute(
    alloc: Global,
    out: &mut Vec<u8>,
    attribute: &MethodAttribute,
) -> Result<(), AllocError>
    ensures { OnOk result (out.new.items ≡ out.old.items ++ method_attribute_bytes attribute.now) }
{
    match attribute {
        MethodAttribute::Code { name, code } => {
            let mut content = Vec::new(alloc);
            write_code(&mut content, code)?;
            write_framed(out, *name, &content)
        }
        MethodAttribute::Exceptions { name, classes } => {
            let mut content = Vec::new(alloc);
            write_numbers(&mut content, classes.as_slice())?;
            write_framed(out, *name, &content)
        }
        MethodAttribute::Kept(kept) => write_kept(out, kept),
    }
}

/// Appends attributes_count and the attributes of a method.
fn write_method_attributes(
    alloc: Global,
    out: &mut Vec<u8>,
    attributes: &[MethodAttribute],
) -> Result<(), AllocError>
    ensures { OnOk result
        (out.new.items ≡ out.old.items ++ counted_bytes method_attribute_bytes attributes.now) }
{
    write_count(out, attributes.len())?;
    for attribute in attributes {
        write_method_attribute(alloc, out, attribute)?;
    }
    Ok(())
}

/// Appends a method.
#[tactic(auto, unfolding(crate::specs::Writing::method_bytes))]
fn write_method(alloc: Global, out: &mut Vec<u8>, method: &MethodInfo) -> Result<(), AllocError>
    ensures { OnOk result (out.new.items ≡ out.old.items ++ method_bytes method.now) }
{
    write_member(out, method.access, method.name, method.descriptor)?;
    write_method_attributes(alloc, out, method.attributes.as_slice())
}

/// Appends methods_count and the methods.
pub(crate) fn write_methods(
    alloc: Global,
    out: &mut Vec<u8>,
    methods: &[MethodInfo],
) -> Result<(), AllocError>
    ensures { OnOk result
        (out.new.items ≡ out.old.items ++ counted_bytes method_bytes methods.now) }
{
    write_count(out, methods.len())?;
    for method in methods {
        write_method(alloc, out, method)?;
    }
    Ok(())
}
