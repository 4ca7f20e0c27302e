//! Instructions with the named items in place of pool numbers (JVMS 6.5).

ghost use Rattle.std.specs.Prelude.{◌≡◌, IfOk, map};
ghost use Rattle.jvms_program.specs.Meaning.{instruction_of};

use crate::loadable::loadable_of;
use crate::reference::{field_reference_of, method_reference_of};
use crate::texts::{Texts, copied};
use jvms_file::insn::{Insn, LookupSwitch, TableSwitch};
use jvms_program::case_table::CaseTable;
use jvms_program::instructions::Instructions;
use jvms_program::program::Instruction;
use shared_data::boxed::Boxed;
use std::alloc::{AllocError, Global};

/// Copies the cases of a tableswitch.
fn table_switch(alloc: Global, s: &TableSwitch) -> Result<TableSwitch, AllocError>
    ensures { IfOk result (λ copy. copy ≡ s.now) }
{
    Ok(TableSwitch {
        default: s.default,
        low: s.low,
        targets: copied(alloc, s.targets.as_slice())?,
    })
}

/// Copies the cases of a lookupswitch into a table.
fn lookup_switch(alloc: Global, s: &LookupSwitch) -> Result<CaseTable, AllocError>
    ensures { IfOk result (λ copy. copy ≡ s.now) }
{
    Ok(CaseTable::new(LookupSwitch {
        default: s.default,
        cases: copied(alloc, s.cases.as_slice())?,
    }))
}

/// Returns the instruction with the named item in place of its pool number.
fn instruction_of(alloc: Global, texts: &Texts, insn: &Insn) -> Result<Instruction, AllocError>
    ensures { IfOk result (λ i. i ≡ instruction_of texts.now insn.now) }
{
    match insn {
        Insn::Simple(s) => Ok(Instruction::Simple(*s)),
        Insn::Branch(how, target) => Ok(Instruction::Branch(*how, *target)),
        Insn::Table(s) => {
            let switch = table_switch(alloc, s.get())?;
            Ok(Instruction::Table(Boxed::new(alloc, switch)?))
        }
        Insn::Lookup(s) => {
            let switch = lookup_switch(alloc, s.get())?;
            Ok(Instruction::Lookup(Boxed::new(alloc, switch)?))
        }
        Insn::Constant(n) => {
            let what = loadable_of(texts, *n)?;
            Ok(Instruction::Constant(Boxed::new(alloc, what)?))
        }
        Insn::Field(how, n) => {
            let field = field_reference_of(texts, *n)?;
            Ok(Instruction::Field(*how, Boxed::new(alloc, field)?))
        }
        Insn::Invoke(how, n) => {
            let method = method_reference_of(texts, *n)?;
            Ok(Instruction::Invoke(*how, Boxed::new(alloc, method)?))
        }
        Insn::Class(how, n) => Ok(Instruction::Class(*how, texts.class_name(*n)?)),
        Insn::MultiNewArray(n, count) => {
            Ok(Instruction::MultiNewArray(*count, texts.class_name(*n)?))
        }
    }
}

/// Returns the instructions of a method, in order.
pub(crate) fn instructions_of(
    alloc: Global,
    texts: &Texts,
    insns: &[Insn],
) -> Result<Instructions, AllocError>
    ensures { IfOk result (λ is. is ≡ map (instruction_of texts.now) insns.now) }
{
    let mut instructions = Vec::with_capacity(alloc, insns.len())?;
    for insn in insns {
        instructions.push(instruction_of(alloc, texts, insn)?)?;
    }
    Instructions::from_vec(alloc, instructions)
}
