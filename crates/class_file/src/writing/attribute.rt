//! Attributes (JVMS 4.7).

ghost use Rattle.std.specs.Prelude.{◌≡◌, ◌++◌, OnOk};
ghost use Rattle.jvms_file.specs.Spelling.{u2};
ghost use Rattle.class_file.specs.Writing.{counted_bytes, framed_bytes, kept_bytes};

use file_bytes::{write_count, write_length, write_u2};
use jvms_file::class_file::KeptAttribute;
use std::alloc::AllocError;

/// Appends an attribute: its name, the length of its content, and the content.
pub(crate) fn write_framed(out: &mut Vec<u8>, name: u16, content: &[u8]) -> Result<(), AllocError>
    ensures { OnOk result (out.new.items ≡ out.old.items ++ framed_bytes name content.now) }
{
    write_u2(out, name)?;
    write_length(out, content.len())?;
    out.extend_from_slice(content)
}

/// Appends a kept attribute.
#[tactic(auto, unfolding(crate::specs::Writing::kept_bytes))]
pub(crate) fn write_kept(out: &mut Vec<u8>, attribute: &KeptAttribute) -> Result<(), AllocError>
    ensures { OnOk result (out.new.items ≡ out.old.items ++ kept_bytes attribute.now) }
{
    write_framed(out, attribute.name, attribute.bytes.as_slice())
}

/// Appends attributes_count and the attributes, all kept.
pub(crate) fn write_kept_attributes(
    out: &mut Vec<u8>,
    attributes: &[KeptAttribute],
) -> Result<(), AllocError>
    ensures { OnOk result
        (out.new.items ≡ out.old.items ++ counted_bytes kept_bytes attributes.now) }
{
    write_count(out, attributes.len())?;
    for attribute in attributes {
        write_kept(out, attribute)?;
    }
    Ok(())
}

/// Appends a count and that many numbers of entries.
pub(crate) fn write_numbers(out: &mut Vec<u8>, numbers: &[u16]) -> Result<(), AllocError>
    ensures { OnOk result (out.new.items ≡ out.old.items ++ counted_bytes u2 numbers.now) }
{
    write_count(out, numbers.len())?;
    for number in numbers {
        write_u2(out, *number)?;
    }
    Ok(())
}
