//! Reads one instruction from bytes.

ghost use Rattle.std.specs.Prelude.{◌≡◌};
ghost use Rattle.jvms_file.specs.Instructions.{operands_at, insn_at};
ghost use Rattle.jvms_file.specs.Reading.{Gives};

use crate::arrays::{multi_new_array, new_array};
use crate::branches::{branch, branch_wide};
use crate::constants::{constant, constant_long, constant_wide, push_byte, push_short};
use crate::locals::{increment, local, wide};
use crate::members::{class, field, invoke};
use crate::switches::{lookup_switch, table_switch};
use const_pool::ScannedPool;
use file_bytes::u1_at;
use jvms_file::fault::{ClassFault, ReadError};
use jvms_file::insn::{Insn, Opcode};
use jvms_file::opcodes::form_of;
use std::alloc::Global;

/// Reads the operands of an opcode, and returns the instruction with the bytes after it.
#[tactic(auto, unfolding(jvms_file::specs::Instructions::operands_at))]
fn operands_at<'a>(
    alloc: Global,
    pool: &ScannedPool,
    major: u16,
    pc: usize,
    form: Opcode,
    bytes: &'a [u8],
) -> Result<(Insn, &'a [u8]), ReadError>
    ensures { Gives (λ x. (x.0, x.1.now)) result (operands_at pool.now major pc form bytes.now) }
{
    let cut = ClassFault::Operand { pc };
    match form {
        Opcode::Alone(simple) => Ok((Insn::Simple(simple), bytes)),
        Opcode::PushByte => push_byte(cut, bytes),
        Opcode::PushShort => push_short(cut, bytes),
        Opcode::Constant => constant(cut, pool.pool(), major, bytes),
        Opcode::ConstantWide => constant_wide(cut, pool.pool(), major, bytes),
        Opcode::ConstantLong => constant_long(cut, pool.pool(), bytes),
        Opcode::Local(how) => local(cut, how, bytes),
        Opcode::Increment => increment(cut, bytes),
        Opcode::Branch(how) => branch(cut, pc, how, bytes),
        Opcode::BranchWide(how) => branch_wide(cut, pc, how, bytes),
        Opcode::TableSwitch => table_switch(alloc, cut, pc, bytes),
        Opcode::LookupSwitch => lookup_switch(alloc, cut, pc, bytes),
        Opcode::Field(how) => field(cut, pool.pool(), how, bytes),
        Opcode::Invoke(how) => invoke(cut, pool, how, bytes),
        Opcode::Class(how) => class(cut, pool.pool(), how, bytes),
        Opcode::NewArray => new_array(cut, bytes),
        Opcode::Wide => wide(cut, bytes),
        Opcode::MultiNewArray => multi_new_array(cut, pool.pool(), bytes),
        Opcode::Reserved => Err(ReadError::Fault(ClassFault::Opcode { pc })),
    }
}

/// Reads the instruction at byte `pc` of a method from the bytes from there on, and returns it with the bytes after it.
/// Its targets are bytes of the method.
#[tactic(auto, unfolding(jvms_file::specs::Instructions::insn_at))]
pub fn insn_at<'a>(
    alloc: Global,
    pool: &ScannedPool,
    major: u16,
    pc: usize,
    bytes: &'a [u8],
) -> Result<(Insn, &'a [u8]), ReadError>
    ensures { Gives (λ x. (x.0, x.1.now)) result (insn_at pool.now major pc bytes.now) }
{
    let (code, rest) = u1_at(ClassFault::Operand { pc }, bytes)?;
    match form_of(code) {
        Some(form) => operands_at(alloc, pool, major, pc, form, rest),
        None => Err(ReadError::Fault(ClassFault::Opcode { pc })),
    }
}
