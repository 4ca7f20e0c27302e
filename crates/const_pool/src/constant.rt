//! One entry as its tag determines it, whatever its numbers name.

ghost use Rattle.std.specs.Prelude.{◌≡◌, ◌≤◌};
ghost use Rattle.jvms_file.specs.ConstantPool.{utf8_constant_at, tagged_at, constant_at};
ghost use Rattle.jvms_file.specs.Reading.{Gives};
ghost use Rattle.file_bytes.specs.Reading.{Finds};

use file_bytes::{bytes_at, u1_at, u2_at, u4_at, u8_at};
use jvms_file::class_file::Constant;
use jvms_file::fault::{ClassFault, ReadError};
use mutf8::Fault;
use std::alloc::Global;

/// Reads a text after its tag, and returns it with the bytes after it (JVMS 4.4.7).
fn text_at(alloc: Global, cut: ClassFault, bytes: &[u8]) -> Result<(Constant, &[u8]), ReadError>
    ensures { Gives (λ x. (x.0, x.1.now)) result (utf8_constant_at cut bytes.now) }
{
    let (count, rest) = u2_at(cut, bytes)?;
    let (text, behind) = bytes_at(cut, usize::from(count), rest)?;
    match mutf8::decode(alloc, text) {
        Ok(units) => Ok((Constant::Utf8(units), behind)),
        Err(Fault::BadUtf8 { at: _ }) => Err(ReadError::Fault(ClassFault::Utf8)),
        Err(Fault::Memory) => Err(ReadError::Memory),
    }
}

/// Reads a number of four or eight bytes after its tag, and returns it with the bytes after it (JVMS 4.4.4, 4.4.5).
fn number_after_tag(tag: u8, cut: ClassFault, bytes: &[u8]) -> Result<(Constant, &[u8]), ClassFault>
    requires from { 3 ≤ tag }
    requires to { tag ≤ 6 }
    ensures { Finds (λ x. (x.0, x.1.now)) result (tagged_at tag cut bytes.now) }
{
    match tag {
        3 => {
            let (n, rest) = u4_at(cut, bytes)?;
            Ok((Constant::Integer(n.cast_signed()), rest))
        }
        4 => {
            let (n, rest) = u4_at(cut, bytes)?;
            Ok((Constant::Float(n), rest))
        }
        5 => {
            let (n, rest) = u8_at(cut, bytes)?;
            Ok((Constant::Long(n.cast_signed()), rest))
        }
        _ => {
            let (n, rest) = u8_at(cut, bytes)?;
            Ok((Constant::Double(n), rest))
        }
    }
}

/// Reads the number of one other entry after a tag, and returns the entry with the bytes after it (JVMS 4.4.1, 4.4.3).
fn name_after_tag(tag: u8, cut: ClassFault, bytes: &[u8]) -> Result<(Constant, &[u8]), ClassFault>
    requires from { 7 ≤ tag }
    requires to { tag ≤ 8 }
    ensures { Finds (λ x. (x.0, x.1.now)) result (tagged_at tag cut bytes.now) }
{
    let (name, rest) = u2_at(cut, bytes)?;
    if tag == 7 {
        Ok((Constant::Class { name }, rest))
    } else {
        Ok((Constant::String { text: name }, rest))
    }
}

/// Reads the numbers of two other entries after a tag, and returns the entry with the bytes after it (JVMS 4.4.2,
/// 4.4.6).
fn names_after(tag: u8, cut: ClassFault, bytes: &[u8]) -> Result<(Constant, &[u8]), ClassFault>
    requires from { 9 ≤ tag }
    requires to { tag ≤ 12 }
    ensures { Finds (λ x. (x.0, x.1.now)) result (tagged_at tag cut bytes.now) }
{
    let (class, rest) = u2_at(cut, bytes)?;
    let (name_and_type, behind) = u2_at(cut, rest)?;
    match tag {
        9 => Ok((
            Constant::Field {
                class,
                name_and_type,
            },
            behind,
        )),
        10 => Ok((
            Constant::Method {
                class,
                name_and_type,
            },
            behind,
        )),
        11 => Ok((
            Constant::InterfaceMethod {
                class,
                name_and_type,
            },
            behind,
        )),
        _ => Ok((
            Constant::NameAndType {
                name: class,
                descriptor: name_and_type,
            },
            behind,
        )),
    }
}

/// Reads the entry after a tag, and returns it with the bytes after it (JVMS table 4.4-A).
fn entry_after_tag(
    alloc: Global,
    tag: u8,
    cut: ClassFault,
    bytes: &[u8],
) -> Result<(Constant, &[u8]), ReadError>
    ensures { Gives (λ x. (x.0, x.1.now)) result (tagged_at tag cut bytes.now) }
{
    match tag {
        1 => text_at(alloc, cut, bytes),
        3..=6 => Ok(number_after_tag(tag, cut, bytes)?),
        7..=8 => Ok(name_after_tag(tag, cut, bytes)?),
        9..=12 => Ok(names_after(tag, cut, bytes)?),
        _ => Err(ReadError::Fault(ClassFault::Tag)),
    }
}

/// Reads the next entry, and returns it with the bytes after it.
#[tactic(auto, unfolding(jvms_file::specs::ConstantPool::constant_at))]
pub(crate) fn constant_at(
    alloc: Global,
    cut: ClassFault,
    bytes: &[u8],
) -> Result<(Constant, &[u8]), ReadError>
    ensures { Gives (λ x. (x.0, x.1.now)) result (constant_at cut bytes.now) }
{
    let (tag, rest) = u1_at(cut, bytes)?;
    entry_after_tag(alloc, tag, cut, rest)
}
