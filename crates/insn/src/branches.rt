//! The instructions with one target (JVMS 6.5 if<cond>, goto, jsr, goto_w, jsr_w).

ghost use Rattle.std.specs.Prelude.{◌≡◌};
ghost use Rattle.jvms_file.specs.Instructions.{branch_insn, wide_branch_insn};
ghost use Rattle.jvms_file.specs.Reading.{Gives};

use crate::targets::target_of;
use file_bytes::{u2_at, u4_at};
use jvms_file::fault::{ClassFault, ReadError};
use jvms_file::insn::{Branch, Insn};

/// Reads the offset of two bytes of a branch, and returns the instruction with the bytes after it.
pub(crate) fn branch(
    cut: ClassFault,
    pc: usize,
    how: Branch,
    bytes: &[u8],
) -> Result<(Insn, &[u8]), ReadError>
    ensures { Gives (λ x. (x.0, x.1.now)) result (branch_insn cut pc how bytes.now) }
{
    let (n, rest) = u2_at(cut, bytes)?;
    let offset = i32::from(n.cast_signed());
    Ok((Insn::Branch(how, target_of(pc, offset)), rest))
}

/// Reads the offset of four bytes of a branch, and returns the instruction with the bytes after it.
pub(crate) fn branch_wide(
    cut: ClassFault,
    pc: usize,
    how: Branch,
    bytes: &[u8],
) -> Result<(Insn, &[u8]), ReadError>
    ensures { Gives (λ x. (x.0, x.1.now)) result (wide_branch_insn cut pc how bytes.now) }
{
    let (n, rest) = u4_at(cut, bytes)?;
    let offset = n.cast_signed();
    Ok((Insn::Branch(how, target_of(pc, offset)), rest))
}
