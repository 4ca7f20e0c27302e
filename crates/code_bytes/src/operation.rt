//! Writes the bytes of an instruction (JVMS 6.5).

ghost use Rattle.std.specs.Prelude.{◌≡◌, ◌++◌, ◌∷◌, [], ◌^◌, ◌-◌, ◌%◌, not, Some, None, OnOk, pos, neg_ℤ, nat_le, if◌then◌else◌};
ghost use Rattle.std.specs.Option.{unwrap_or};
ghost use Rattle.jvms_file.specs.Instructions.{interface_count};
ghost use Rattle.jvms_file.specs.Spelling.{u2};
ghost use Rattle.assembly.specs.Sizes.{is_between, is_too_far};
ghost use Rattle.assembly.specs.Opcodes.{branch_opcode, wide_branch_opcode, invoke_opcode};
ghost use Rattle.assembly.specs.Bytes.{s1, s2, s4, constant_bytes, local_bytes, increment_bytes, after_invoke, operation_bytes};
ghost use Rattle.code_bytes.specs.Few.{IsFew};
ghost use Rattle.code_bytes.specs.Writing.{Writes};

use crate::numbers::{write_s1, write_s2, write_s4, write_u1};
use crate::opcodes::{
    array_type_number, branch_opcode, class_opcode, field_opcode, invoke_opcode, local_opcode,
    wide_branch_opcode,
};
use crate::sizes::is_byte_step;
use crate::switches::{write_lookup, write_table};
use crate::targets::offset_of;
use assembly::fault::AsmFault;
use descriptor::method_units;
use file_bytes::write_u2;
use jasmin::source::{BranchWidth, ConstantWidth, Operation};
use jvms_file::insn::{Branch, Invoke};
use source_labels::Labels;
use std::alloc::AllocError;

/// The opcode of wide.
const WIDE: u8 = 196;

/// The opcode of iinc.
const INCREMENT: u8 = 132;

/// Appends an opcode and a byte.
fn write_two(out: &mut Vec<u8>, code: u8, operand: u8) -> Result<(), AllocError>
    ensures { OnOk result (out.new.items ≡ out.old.items ++ code ∷ operand ∷ []) }
{
    write_u1(out, code)?;
    write_u1(out, operand)
}

/// Appends an opcode and a number of two bytes.
fn write_numbered(out: &mut Vec<u8>, code: u8, number: u16) -> Result<(), AllocError>
    ensures { OnOk result (out.new.items ≡ out.old.items ++ code ∷ u2 number) }
{
    write_u1(out, code)?;
    write_u2(out, number)
}

/// Appends bipush.
fn write_push_byte(out: &mut Vec<u8>, number: i8) -> Result<(), AllocError>
    ensures { OnOk result (out.new.items ≡ out.old.items ++ 16 ∷ s1 number) }
{
    write_u1(out, 16)?;
    write_s1(out, number)
}

/// Appends sipush.
fn write_push_short(out: &mut Vec<u8>, number: i16) -> Result<(), AllocError>
    ensures { OnOk result (out.new.items ≡ out.old.items ++ 17 ∷ s2 number) }
{
    write_u1(out, 17)?;
    write_s2(out, number)
}

/// Appends ldc, or ldc_w for an index above 255.
fn write_short_load(out: &mut Vec<u8>, number: u16) -> Result<(), AllocError>
    ensures { OnOk result (out.new.items
        ≡ out.old.items ++ (if nat_le number 255 then 18 ∷ number ∷ [] else 19 ∷ u2 number)) }
{
    if number <= 255 {
        write_two(out, 18, number as u8)
    } else {
        write_numbered(out, 19, number)
    }
}

/// Appends ldc or ldc_w.
fn write_load(out: &mut Vec<u8>, width: ConstantWidth, number: u16) -> Result<(), AllocError>
    ensures { OnOk result (out.new.items ≡ out.old.items ++ constant_bytes width number) }
{
    match width {
        ConstantWidth::AsNeeded => write_short_load(out, number),
        ConstantWidth::Wide => write_numbered(out, 19, number),
    }
}

/// Appends a load, a store or ret. wide precedes it if the local variable's number is above 255.
fn write_local(out: &mut Vec<u8>, code: u8, local: u16) -> Result<(), AllocError>
    ensures { OnOk result (out.new.items ≡ out.old.items ++ local_bytes code local) }
{
    if local <= 255 {
        return write_two(out, code, local as u8);
    }
    write_u1(out, WIDE)?;
    write_numbered(out, code, local)
}

/// Appends iinc. wide precedes it if the local variable's number doesn't fit one unsigned byte, or the increment one
/// signed byte.
fn write_increment(out: &mut Vec<u8>, local: u16, by: i16) -> Result<(), AllocError>
    ensures { OnOk result (out.new.items ≡ out.old.items ++ increment_bytes local by) }
{
    if is_byte_step(local, by) {
        write_two(out, INCREMENT, local as u8)?;
        return write_s1(out, by as i8);
    }
    write_u1(out, WIDE)?;
    write_numbered(out, INCREMENT, local)?;
    write_s2(out, by)
}

/// Returns the offset, if it fits two bytes.
fn near(offset: i32) -> Option<i16>
    ensures { result ≡ (if is_between (neg_ℤ (pos (2 ^ 15))) (pos (2 ^ 15 - 1)) offset
        then Some offset else None) }
{
    if -32768 <= offset && offset <= 32767 {
        Some(offset as i16)
    } else {
        None
    }
}

/// Appends a branch with an offset of two bytes.
///
/// # Errors
///
/// Returns `BranchTooFar` if the offset doesn't fit, or `Memory` if memory ran out.
fn write_near(out: &mut Vec<u8>, how: Branch, offset: i32) -> Result<(), AsmFault>
    ensures { Writes (not (is_between (neg_ℤ (pos (2 ^ 15))) (pos (2 ^ 15 - 1)) offset))
        (branch_opcode how ∷ s2 offset) result out.old.items out.new.items }
{
    let Some(short) = near(offset) else {
        return Err(AsmFault::BranchTooFar);
    };
    write_u1(out, branch_opcode(how))?;
    write_s2(out, short)?;
    Ok(())
}

/// Appends a branch with an offset of four bytes.
fn write_far(out: &mut Vec<u8>, how: Branch, offset: i32) -> Result<(), AllocError>
    ensures { OnOk result (out.new.items ≡ out.old.items ++ wide_branch_opcode how ∷ s4 offset) }
{
    write_u1(out, wide_branch_opcode(how))?;
    write_s4(out, offset)
}

/// Returns the number of units of the arguments of an interface's method with the object, modulo 256.
fn interface_units(descriptor: &[u16]) -> u8
    ensures { result ≡ unwrap_or (interface_count (Some ([], descriptor.now))) 0 % 256 }
{
    match method_units(descriptor) {
        Some(units) => ((units + 1) % 256) as u8,
        None => 0,
    }
}

/// Appends the bytes after the index of an invoke instruction.
fn write_after_invoke(out: &mut Vec<u8>, how: Invoke, descriptor: &[u16]) -> Result<(), AllocError>
    ensures { OnOk result (out.new.items ≡ out.old.items ++ after_invoke how descriptor.now) }
{
    match how {
        Invoke::Interface => write_two(out, interface_units(descriptor), 0),
        Invoke::Virtual | Invoke::Special | Invoke::Static => Ok(()),
    }
}

/// Appends an invoke instruction.
fn write_invoke(
    out: &mut Vec<u8>,
    how: Invoke,
    number: u16,
    descriptor: &[u16],
) -> Result<(), AllocError>
    ensures { OnOk result (out.new.items
        ≡ out.old.items ++ (invoke_opcode how ∷ u2 number ++ after_invoke how descriptor.now)) }
{
    write_numbered(out, invoke_opcode(how), number)?;
    write_after_invoke(out, how, descriptor)
}

/// Appends multianewarray.
fn write_multi_new_array(out: &mut Vec<u8>, number: u16, count: u8) -> Result<(), AllocError>
    ensures { OnOk result (out.new.items ≡ out.old.items ++ (197 ∷ u2 number ++ count ∷ [])) }
{
    write_numbered(out, 197, number)?;
    write_u1(out, count)
}

/// Appends an instruction that starts at byte `pc` and names the pool entry `number`. `starts` are the bytes at which
/// the code's instructions start.
///
/// # Errors
///
/// Returns `BranchTooFar` if its branch can't reach its label, or `Memory` if memory ran out.
#[tactic(auto, unfolding(assembly::specs::Bytes::operation_bytes, assembly::specs::Sizes::is_too_far))]
pub(crate) fn write_operation(
    out: &mut Vec<u8>,
    labels: &Labels<'_>,
    starts: &[u16],
    number: u16,
    pc: u16,
    operation: &Operation,
) -> Result<(), AsmFault>
    requires { IsFew operation.now }
    ensures { Writes (is_too_far starts.now labels.now pc operation.now)
        (operation_bytes starts.now labels.now number pc operation.now)
        result out.old.items out.new.items }
{
    match operation {
        Operation::Alone(code) => Ok(write_u1(out, *code)?),
        Operation::PushByte(value) => Ok(write_push_byte(out, *value)?),
        Operation::PushShort(value) => Ok(write_push_short(out, *value)?),
        Operation::Constant(width, _) => Ok(write_load(out, *width, number)?),
        Operation::ConstantLong(_) => Ok(write_numbered(out, 20, number)?),
        Operation::Local(how, local) => Ok(write_local(out, local_opcode(*how), *local)?),
        Operation::Increment(local, by) => Ok(write_increment(out, *local, *by)?),
        Operation::Branch(BranchWidth::Short, how, label) => {
            write_near(out, *how, offset_of(labels, starts, pc, label))
        }
        Operation::Branch(BranchWidth::Wide, how, label) => {
            Ok(write_far(out, *how, offset_of(labels, starts, pc, label))?)
        }
        Operation::Table(lines) => Ok(write_table(out, labels, starts, pc, lines.get())?),
        Operation::Lookup(lines) => Ok(write_lookup(out, labels, starts, pc, lines.get())?),
        Operation::Field(how, _) => Ok(write_numbered(out, field_opcode(*how), number)?),
        Operation::Invoke(how, method) => {
            Ok(write_invoke(out, *how, number, method.get().descriptor.as_slice())?)
        }
        Operation::Class(how, _) => Ok(write_numbered(out, class_opcode(*how), number)?),
        Operation::NewArray(component) => Ok(write_two(out, 188, array_type_number(*component))?),
        Operation::MultiNewArray(_, count) => Ok(write_multi_new_array(out, number, *count)?),
    }
}
