//! Writes entries (JVMS 4.4).

ghost use Rattle.std.specs.Prelude.{◌≡◌, ◌++◌, ◌∷◌, OnOk, OnErr, IfOk};
ghost use Rattle.std.specs.List.{flat_map};
ghost use Rattle.jvms_file.specs.Spelling.{u2, u4, u8};
ghost use Rattle.const_pool.specs.Writing.{text_bytes, constant_bytes, pool_bytes};

use file_bytes::{write_count, write_u2, write_u4, write_u8};
use jvms_file::class_file::Constant;
use std::alloc::{AllocError, Global};

/// Appends a text (JVMS 4.4.7).
fn write_text(alloc: Global, out: &mut Vec<u8>, text: &[u16]) -> Result<(), AllocError>
    ensures { OnOk result (out.new.items ≡ out.old.items ++ text_bytes text.now) }
{
    let bytes = mutf8::encode(alloc, text)?;
    out.push(1)?;
    write_count(out, bytes.len())?;
    out.extend_from_slice(&bytes)
}

/// Appends a tag and a number of four bytes (JVMS 4.4.4).
fn write_four(out: &mut Vec<u8>, tag: u8, number: u32) -> Result<(), AllocError>
    ensures { OnOk result (out.new.items ≡ out.old.items ++ (tag ∷ u4 number)) }
{
    out.push(tag)?;
    write_u4(out, number)
}

/// Appends a tag and a number of eight bytes (JVMS 4.4.5).
fn write_eight(out: &mut Vec<u8>, tag: u8, number: u64) -> Result<(), AllocError>
    ensures { OnOk result (out.new.items ≡ out.old.items ++ (tag ∷ u8 number)) }
{
    out.push(tag)?;
    write_u8(out, number)
}

/// Appends a tag and the number of another entry (JVMS 4.4.1, 4.4.3).
fn write_name(out: &mut Vec<u8>, tag: u8, name: u16) -> Result<(), AllocError>
    ensures { OnOk result (out.new.items ≡ out.old.items ++ (tag ∷ u2 name)) }
{
    out.push(tag)?;
    write_u2(out, name)
}

/// Appends a tag and the numbers of two other entries (JVMS 4.4.2, 4.4.6).
fn write_names(out: &mut Vec<u8>, tag: u8, first: u16, second: u16) -> Result<(), AllocError>
    ensures { OnOk result (out.new.items ≡ out.old.items ++ (tag ∷ (u2 first ++ u2 second))) }
{
    out.push(tag)?;
    write_u2(out, first)?;
    write_u2(out, second)
}

/// Appends an entry.
#[tactic(auto, unfolding(crate::specs::Writing::constant_bytes))]
fn write_constant(alloc: Global, out: &mut Vec<u8>, constant: &Constant) -> Result<(), AllocError>
    ensures { OnOk result (out.new.items ≡ out.old.items ++ constant_bytes constant.now) }
{
    match constant {
        Constant::Utf8(text) => write_text(alloc, out, text.as_slice()),
        Constant::Integer(number) => write_four(out, 3, number.cast_unsigned()),
        Constant::Float(number) => write_four(out, 4, *number),
        Constant::Long(number) => write_eight(out, 5, number.cast_unsigned()),
        Constant::Double(number) => write_eight(out, 6, *number),
        Constant::Class { name } => write_name(out, 7, *name),
        Constant::String { text } => write_name(out, 8, *text),
        Constant::Field {
            class,
            name_and_type,
        } => write_names(out, 9, *class, *name_and_type),
        Constant::Method {
            class,
            name_and_type,
        } => write_names(out, 10, *class, *name_and_type),
        Constant::InterfaceMethod {
            class,
            name_and_type,
        } => write_names(out, 11, *class, *name_and_type),
        Constant::NameAndType { name, descriptor } => write_names(out, 12, *name, *descriptor),
        Constant::Unusable => Ok(()),
    }
}

/// Appends entries, one after another.
fn write_entries(alloc: Global, out: &mut Vec<u8>, entries: &[Constant]) -> Result<(), AllocError>
    ensures { OnOk result (out.new.items ≡ out.old.items ++ flat_map constant_bytes entries.now) }
{
    for constant in entries {
        write_constant(alloc, out, constant)?;
    }
    Ok(())
}

/// Returns the bytes of a pool of these entries: constant_pool_count, and the entries.
fn pool_bytes_of(alloc: Global, entries: &[Constant]) -> Result<Vec<u8>, AllocError>
    ensures { IfOk result (λ bytes. bytes.items ≡ pool_bytes entries.now) }
{
    let mut bytes = Vec::new(alloc);
    write_count(&mut bytes, entries.len() + 1)?;
    write_entries(alloc, &mut bytes, entries)?;
    Ok(bytes)
}

/// Appends a pool of these entries: constant_pool_count, and the entries. Without memory for all of it nothing changes.
pub fn write_pool(alloc: Global, out: &mut Vec<u8>, entries: &[Constant]) -> Result<(), AllocError>
    ensures ok { OnOk result (out.new.items ≡ out.old.items ++ pool_bytes entries.now) }
    ensures kept { OnErr result (out.new.items ≡ out.old.items) }
{
    let bytes = pool_bytes_of(alloc, entries)?;
    out.extend_from_slice(&bytes)
}
