//! Judges the operands of instructions, by the form of their opcodes.

ghost use Rattle.std.specs.Prelude.{◌≡◌};
ghost use Rattle.jasmin.specs.Lexing.{lexemes};
ghost use Rattle.jasmin.specs.Judgements.{map_ok};
ghost use Rattle.jasmin.specs.Operands.{exactly, i8_at, i16_at, i32_at, i64_at, u16_at};
ghost use Rattle.jasmin.specs.Statements.{alone, increment_operation, branch_operation, new_array_operation, instruction_with, instruction_line};
ghost use Rattle.jasmin_instructions.specs.Saying.{Says};

use crate::class_operands::{class_operation, multi_new_array_operation};
use crate::constants::constant_operation;
use crate::fault::LineFault;
use crate::field_operands::field_operation;
use crate::invoke_operands::invoke_operation;
use crate::parts::alone;
use jasmin::source::{BranchWidth, ConstantWidth, Operation};
use jasmin::statement::{Flaw, Instruction};
use jasmin::token::Token;
use jasmin_operands::{
    Judged, array_type_at, both, exactly, i8_at, i16_at, i32_at, i64_at, label_at, operand, u16_at,
    unless,
};
use jvms_file::insn::{Branch, Opcode};
use jvms_file::opcodes::form_of;
use shared_data::texts::copied_text;
use std::alloc::Global;

/// Judges the operands of JVMS 6.5 `iinc`.
#[tactic(auto, unfolding(jasmin::specs::Statements::increment_operation))]
fn increment_operation(tokens: &[Token]) -> Judged<Operation>
    ensures { result ≡ increment_operation (lexemes tokens.now) }
{
    let numbers = both(u16_at(operand(tokens, 0)), i16_at(operand(tokens, 1)));
    let (local, by) = unless(numbers, exactly(2, tokens))?;
    Ok(Operation::Increment(local, by))
}

/// Judges the operand of JVMS 6.5 `if_acmp<cond>`, `if_icmp<cond>`, `if<cond>`, `ifnonnull`, `ifnull`, `goto`, `jsr`,
/// `goto_w`, `jsr_w`.
#[tactic(auto, unfolding(jasmin::specs::Statements::branch_operation))]
fn branch_operation(
    alloc: Global,
    width: BranchWidth,
    how: Branch,
    tokens: &[Token],
) -> Result<Operation, LineFault>
    ensures { Says result (branch_operation width how (lexemes tokens.now)) }
{
    let label = alone(label_at(operand(tokens, 0)), tokens)?;
    Ok(Operation::Branch(width, how, copied_text(alloc, label)?))
}

/// Judges the operand of JVMS 6.5 `newarray`.
#[tactic(auto, unfolding(jasmin::specs::Statements::new_array_operation))]
fn new_array_operation(tokens: &[Token]) -> Judged<Operation>
    ensures { result ≡ new_array_operation (lexemes tokens.now) }
{
    let component = unless(array_type_at(operand(tokens, 0)), exactly(1, tokens))?;
    Ok(Operation::NewArray(component))
}

/// Judges the operands of an opcode of this form.
fn instruction_with(
    alloc: Global,
    code: u8,
    form: Opcode,
    tokens: &[Token],
) -> Result<Instruction, LineFault>
    ensures { Says result (instruction_with code form (lexemes tokens.now)) }
{
    let first = operand(tokens, 0);
    let alone = exactly(1, tokens);
    let operation = match form {
        Opcode::Alone(_) => {
            exactly(0, tokens)?;
            Operation::Alone(code)
        }
        Opcode::PushByte => Operation::PushByte(unless(i8_at(first), alone)?),
        Opcode::PushShort => Operation::PushShort(unless(i16_at(first), alone)?),
        Opcode::Constant => constant_operation(alloc, ConstantWidth::AsNeeded, tokens)?,
        Opcode::ConstantWide => constant_operation(alloc, ConstantWidth::Wide, tokens)?,
        Opcode::ConstantLong => Operation::ConstantLong(unless(i64_at(first), alone)?),
        Opcode::Local(how) => Operation::Local(how, unless(u16_at(first), alone)?),
        Opcode::Increment => increment_operation(tokens)?,
        Opcode::Branch(how) => branch_operation(alloc, BranchWidth::Short, how, tokens)?,
        Opcode::BranchWide(how) => branch_operation(alloc, BranchWidth::Wide, how, tokens)?,
        Opcode::TableSwitch => return Ok(Instruction::Table(unless(i32_at(first), alone)?)),
        Opcode::LookupSwitch => {
            exactly(0, tokens)?;
            return Ok(Instruction::Lookup);
        }
        Opcode::Field(how) => field_operation(alloc, how, tokens)?,
        Opcode::Invoke(how) => invoke_operation(alloc, how, tokens)?,
        Opcode::Class(how) => class_operation(alloc, how, tokens)?,
        Opcode::NewArray => new_array_operation(tokens)?,
        Opcode::MultiNewArray => multi_new_array_operation(alloc, tokens)?,
        Opcode::Wide | Opcode::Reserved => return Err(LineFault::Flaw(Flaw::UnknownInstruction)),
    };
    Ok(Instruction::Whole(operation))
}

/// Judges the operands of an opcode, and returns its instruction.
///
/// # Errors
///
/// Returns the `Flaw` of the least number if the operands aren't those of the opcode. It is `UnknownInstruction` if the
/// number is no opcode's. Returns `Memory` if memory ran out.
#[tactic(auto, unfolding(jasmin::specs::Statements::instruction_line))]
pub fn instruction_line(alloc: Global, code: u8, tokens: &[Token]) -> Result<Instruction, LineFault>
    ensures { Says result (instruction_line code (lexemes tokens.now)) }
{
    match form_of(code) {
        Some(form) => instruction_with(alloc, code, form, tokens),
        None => Err(LineFault::Flaw(Flaw::UnknownInstruction)),
    }
}
