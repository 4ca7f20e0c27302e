//! Class files (JVMS 4.1).

ghost use Rattle.std.specs.Prelude.{◌≡◌, ◌++◌, IfOk, OnOk};
ghost use Rattle.class_file.specs.Writing.{header_bytes, names_bytes, members_bytes, class_bytes};

use crate::class::MAGIC;
use crate::writing::attribute::{write_kept_attributes, write_numbers};
use crate::writing::member::{write_fields, write_methods};
use const_pool::write_pool;
use file_bytes::{write_u2, write_u4};
use jvms_file::class_file::ClassFile;
use std::alloc::{AllocError, Global};

/// Appends the magic number and the versions.
fn write_header(out: &mut Vec<u8>, class: &ClassFile) -> Result<(), AllocError>
    ensures { OnOk result (out.new.items ≡ out.old.items ++ header_bytes class.now) }
{
    write_u4(out, MAGIC)?;
    write_u2(out, class.minor)?;
    write_u2(out, class.major)
}

/// Appends the access flags, the class and its superclass.
fn write_names(out: &mut Vec<u8>, class: &ClassFile) -> Result<(), AllocError>
    ensures { OnOk result (out.new.items ≡ out.old.items ++ names_bytes class.now) }
{
    write_u2(out, class.access)?;
    write_u2(out, class.this_class)?;
    write_u2(out, class.super_class)
}

/// Appends the parts after the superclass.
fn write_members(alloc: Global, out: &mut Vec<u8>, class: &ClassFile) -> Result<(), AllocError>
    ensures { OnOk result (out.new.items ≡ out.old.items ++ members_bytes class.now) }
{
    write_numbers(out, class.interfaces.as_slice())?;
    write_fields(out, class.fields.as_slice())?;
    write_methods(alloc, out, class.methods.as_slice())?;
    write_kept_attributes(out, class.attributes.as_slice())
}

/// Writes the bytes of a class. Any value has bytes, so it fails only without memory.
#[tactic(auto, unfolding(crate::specs::Writing::class_bytes))]
pub(crate) fn write_class(alloc: Global, class: &ClassFile) -> Result<Vec<u8>, AllocError>
    ensures exact { IfOk result (λ bytes. bytes.items ≡ class_bytes class.now) }
{
    let mut out = Vec::new(alloc);
    write_header(&mut out, class)?;
    write_pool(alloc, &mut out, class.pool.as_slice())?;
    write_names(&mut out, class)?;
    write_members(alloc, &mut out, class)?;
    Ok(out)
}
