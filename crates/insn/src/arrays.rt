//! The instructions that create arrays (JVMS 6.5 newarray, multianewarray).

ghost use Rattle.std.specs.Prelude.{◌≡◌};
ghost use Rattle.std.specs.Option.{option_map};
ghost use Rattle.jvms_file.specs.Instructions.{array_type_of, new_array_insn, is_dimensions, multi_new_array_insn};
ghost use Rattle.jvms_file.specs.Reading.{Gives};

use const_pool::Pool;
use descriptor::dimensions_of;
use file_bytes::{u1_at, u2_at, want};
use jvms_file::fault::{ClassFault, ReadError};
use jvms_file::insn::{ArrayInsn, ArrayType, Insn, Simple};

/// Returns the component type of a code (JVMS table 6.5.newarray-A).
fn array_type_of(code: u8) -> Option<ArrayType>
    ensures { result ≡ array_type_of code }
{
    match code {
        4 => Some(ArrayType::Boolean),
        5 => Some(ArrayType::Char),
        6 => Some(ArrayType::Float),
        7 => Some(ArrayType::Double),
        8 => Some(ArrayType::Byte),
        9 => Some(ArrayType::Short),
        10 => Some(ArrayType::Int),
        11 => Some(ArrayType::Long),
        _ => None,
    }
}

/// Reads the operand of newarray, and returns the instruction with the bytes after it (JVMS 6.5 newarray).
pub(crate) fn new_array(cut: ClassFault, bytes: &[u8]) -> Result<(Insn, &[u8]), ReadError>
    ensures { Gives (λ x. (x.0, x.1.now)) result (new_array_insn cut bytes.now) }
{
    let (code, rest) = u1_at(cut, bytes)?;
    match array_type_of(code) {
        Some(component) => Ok((Insn::Simple(Simple::Array(ArrayInsn::New(component))), rest)),
        None => Err(ReadError::Fault(cut)),
    }
}

/// Decides whether a class has at least `count` dimensions, and `count` isn't 0 (JVMS 6.5 multianewarray).
fn is_dimensions(count: u8, class: Option<&[u16]>) -> bool
    ensures { result ≡ is_dimensions count (option_map (λ t. t.now) class.entry) }
{
    match class {
        Some(name) => count > 0 && usize::from(count) <= dimensions_of(name),
        None => false,
    }
}

/// Reads the operands of multianewarray, and returns the instruction with the bytes after it (JVMS 6.5 multianewarray).
pub(crate) fn multi_new_array<'a>(
    cut: ClassFault,
    pool: &Pool,
    bytes: &'a [u8],
) -> Result<(Insn, &'a [u8]), ReadError>
    ensures { Gives (λ x. (x.0, x.1.now)) result (multi_new_array_insn cut pool.now bytes.now) }
{
    let (number, rest) = u2_at(cut, bytes)?;
    let (count, behind) = u1_at(cut, rest)?;
    want(is_dimensions(count, pool.class_name(number)), cut)?;
    Ok((Insn::MultiNewArray(number, count), behind))
}
