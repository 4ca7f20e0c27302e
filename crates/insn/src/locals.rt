//! The instructions that name a local variable (JVMS 6.5 iload, istore, ret, iinc, wide).

ghost use Rattle.std.specs.Prelude.{◌≡◌};
ghost use Rattle.jvms_file.specs.Instructions.{wide_form, wide_insn};
ghost use Rattle.jvms_file.specs.Reading.{Gives};
ghost use Rattle.insn.specs.Operands.{local_insn, increment_insn};

use file_bytes::{u1_at, u2_at};
use jvms_file::fault::{ClassFault, ReadError};
use jvms_file::insn::{Insn, LocalUse, Opcode, Simple};
use jvms_file::opcodes::form_of;

/// Reads the operand of a load, a store or ret, a local's number of one byte, and returns the instruction with the
/// bytes after it.
pub(crate) fn local(
    cut: ClassFault,
    how: LocalUse,
    bytes: &[u8],
) -> Result<(Insn, &[u8]), ReadError>
    ensures { Gives (λ x. (x.0, x.1.now)) result (local_insn cut how bytes.now) }
{
    let (number, rest) = u1_at(cut, bytes)?;
    let local = u16::from(number);
    Ok((Insn::Simple(Simple::Local(how, local)), rest))
}

/// Reads the operands of iinc, and returns the instruction with the bytes after it (JVMS 6.5 iinc).
pub(crate) fn increment(cut: ClassFault, bytes: &[u8]) -> Result<(Insn, &[u8]), ReadError>
    ensures { Gives (λ x. (x.0, x.1.now)) result (increment_insn cut bytes.now) }
{
    let (number, rest) = u1_at(cut, bytes)?;
    let (by, behind) = u1_at(cut, rest)?;
    let local = u16::from(number);
    let summand = i16::from(by.cast_signed());
    Ok((Insn::Simple(Simple::Increment(local, summand)), behind))
}

/// Reads the operands after `wide` and an opcode, and returns the instruction with the bytes after it.
fn wide_form(
    cut: ClassFault,
    form: Option<Opcode>,
    bytes: &[u8],
) -> Result<(Insn, &[u8]), ReadError>
    ensures { Gives (λ x. (x.0, x.1.now)) result (wide_form cut form bytes.now) }
{
    match form {
        Some(Opcode::Local(how)) => {
            let (number, rest) = u2_at(cut, bytes)?;
            Ok((Insn::Simple(Simple::Local(how, number)), rest))
        }
        Some(Opcode::Increment) => {
            let (number, rest) = u2_at(cut, bytes)?;
            let (by, behind) = u2_at(cut, rest)?;
            let summand = by.cast_signed();
            Ok((Insn::Simple(Simple::Increment(number, summand)), behind))
        }
        _ => Err(ReadError::Fault(cut)),
    }
}

/// Reads the opcode and operands after `wide`, and returns the instruction with the bytes after it (JVMS 6.5 wide).
#[tactic(auto, unfolding(jvms_file::specs::Instructions::wide_insn))]
pub(crate) fn wide(cut: ClassFault, bytes: &[u8]) -> Result<(Insn, &[u8]), ReadError>
    ensures { Gives (λ x. (x.0, x.1.now)) result (wide_insn cut bytes.now) }
{
    let (code, rest) = u1_at(cut, bytes)?;
    wide_form(cut, form_of(code), rest)
}
