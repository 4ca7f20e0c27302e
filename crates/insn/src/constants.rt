//! The instructions that push a constant (JVMS 6.5 bipush, sipush, ldc, ldc_w, ldc2_w).

ghost use Rattle.std.specs.Prelude.{◌≡◌};
ghost use Rattle.std.specs.Option.{option_copied};
ghost use Rattle.jvms_file.specs.Instructions.{passes, is_loadable, is_wide_loadable};
ghost use Rattle.jvms_file.specs.Reading.{Gives};
ghost use Rattle.insn.specs.Operands.{push_byte_insn, push_short_insn, narrow_constant_insn, wide_constant_insn, long_constant_insn};

use const_pool::Pool;
use file_bytes::{u1_at, u2_at, want};
use jvms_file::class_file::Constant;
use jvms_file::fault::{ClassFault, ReadError};
use jvms_file::insn::{Insn, Push, Simple};

/// The first version whose `ldc` pushes classes (JVMS 4.9.1).
const CLASS_VERSION: u16 = 49;

/// Reads the operand of bipush, and returns the instruction with the bytes after it (JVMS 6.5 bipush).
pub(crate) fn push_byte(cut: ClassFault, bytes: &[u8]) -> Result<(Insn, &[u8]), ReadError>
    ensures { Gives (λ x. (x.0, x.1.now)) result (push_byte_insn cut bytes.now) }
{
    let (n, rest) = u1_at(cut, bytes)?;
    let value = i16::from(n.cast_signed());
    Ok((Insn::Simple(Simple::Push(Push::Int(value))), rest))
}

/// Reads the operand of sipush, and returns the instruction with the bytes after it (JVMS 6.5 sipush).
pub(crate) fn push_short(cut: ClassFault, bytes: &[u8]) -> Result<(Insn, &[u8]), ReadError>
    ensures { Gives (λ x. (x.0, x.1.now)) result (push_short_insn cut bytes.now) }
{
    let (n, rest) = u2_at(cut, bytes)?;
    let value = n.cast_signed();
    Ok((Insn::Simple(Simple::Push(Push::Int(value))), rest))
}

/// Decides whether `ldc` may push an entry (JVMS 6.5 ldc).
fn is_loadable(major: u16, found: Option<&Constant>) -> bool
    ensures { result ≡ passes (is_loadable major) (option_copied found.entry) }
{
    match found {
        Some(Constant::Integer(_) | Constant::Float(_) | Constant::String { text: _ }) => true,
        Some(Constant::Class { name: _ }) => major >= CLASS_VERSION,
        _ => false,
    }
}

/// Decides whether `ldc2_w` may push an entry (JVMS 6.5 ldc2_w).
fn is_wide_loadable(found: Option<&Constant>) -> bool
    ensures { result ≡ passes is_wide_loadable (option_copied found.entry) }
{
    matches!(found, Some(Constant::Long(_) | Constant::Double(_)))
}

/// Reads the operand of ldc, and returns the instruction with the bytes after it (JVMS 6.5 ldc).
pub(crate) fn constant<'a>(
    cut: ClassFault,
    pool: &Pool,
    major: u16,
    bytes: &'a [u8],
) -> Result<(Insn, &'a [u8]), ReadError>
    ensures { Gives (λ x. (x.0, x.1.now)) result
        (narrow_constant_insn cut pool.now major bytes.now) }
{
    let (n, rest) = u1_at(cut, bytes)?;
    let number = u16::from(n);
    want(is_loadable(major, pool.entry(number)), cut)?;
    Ok((Insn::Constant(number), rest))
}

/// Reads the operand of ldc_w, and returns the instruction with the bytes after it (JVMS 6.5 ldc_w).
pub(crate) fn constant_wide<'a>(
    cut: ClassFault,
    pool: &Pool,
    major: u16,
    bytes: &'a [u8],
) -> Result<(Insn, &'a [u8]), ReadError>
    ensures { Gives (λ x. (x.0, x.1.now)) result (wide_constant_insn cut pool.now major bytes.now) }
{
    let (number, rest) = u2_at(cut, bytes)?;
    want(is_loadable(major, pool.entry(number)), cut)?;
    Ok((Insn::Constant(number), rest))
}

/// Reads the operand of ldc2_w, and returns the instruction with the bytes after it (JVMS 6.5 ldc2_w).
pub(crate) fn constant_long<'a>(
    cut: ClassFault,
    pool: &Pool,
    bytes: &'a [u8],
) -> Result<(Insn, &'a [u8]), ReadError>
    ensures { Gives (λ x. (x.0, x.1.now)) result (long_constant_insn cut pool.now bytes.now) }
{
    let (number, rest) = u2_at(cut, bytes)?;
    want(is_wide_loadable(pool.entry(number)), cut)?;
    Ok((Insn::Constant(number), rest))
}
