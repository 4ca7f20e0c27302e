//! Makes the instructions of a method. Their targets are places of instructions.

ghost use Rattle.std.specs.Prelude.{◌≡◌, ◌≤◌, length, map, IfOk};
ghost use Rattle.jvms_file.specs.declared.insn.Insn.TheVariants as insn;
ghost use Rattle.jvms_file.specs.declared.insn.Simple.TheVariants as simple;
ghost use Rattle.jvms_file.specs.declared.insn.Push.TheVariants as push;
ghost use Rattle.jasmin.specs.Denote.{target, operations, simple_of, switch_case};
ghost use Rattle.assembly.specs.CodeOf.{insn_of, insns_from};

use crate::steps::next_operation;
use crate::targets::target_of;
use jasmin::source::{CodeItem, LookupLines, MatchLine, Operation, TableLines};
use jvms_file::insn::{
    ArrayInsn, Insn, LookupSwitch, Opcode, Push, Simple, SwitchCase, TableSwitch,
};
use jvms_file::opcodes::form_of;
use shared_data::boxed::Boxed;
use shared_data::items::Items;
use shared_data::shared::Text;
use source_labels::Labels;
use std::alloc::{AllocError, Global};

/// Returns the instruction of an opcode without operands.
fn simple_of(code: u8) -> Simple
    ensures { result ≡ simple_of code }
{
    match form_of(code) {
        Some(Opcode::Alone(simple)) => simple,
        _ => Simple::Nop,
    }
}

/// Returns the instruction that pushes an int.
fn pushed(value: i16) -> Insn
    ensures { result ≡ insn.Simple (simple.Push (push.Int value)) }
{
    Insn::Simple(Simple::Push(Push::Int(value)))
}

/// Returns the places of labels.
fn targets_of(alloc: Global, labels: &Labels<'_>, names: &[Text]) -> Result<Items<u32>, AllocError>
    requires { length (operations labels.now) ≤ 65535 }
    ensures { IfOk result (λ targets. targets ≡ map (target labels.now) names.now) }
{
    let mut targets = Items::with_capacity(alloc, names.len())?;
    for name in names {
        targets.push(target_of(labels, name))?;
    }
    Ok(targets)
}

/// Returns a tableswitch.
fn table_of(
    alloc: Global,
    labels: &Labels<'_>,
    lines: &TableLines,
) -> Result<TableSwitch, AllocError>
    requires { length (operations labels.now) ≤ 65535 }
    ensures { IfOk result (λ s. s ≡ record {
      default = target labels.now lines.now.default;
      low = lines.now.low;
      targets = map (target labels.now) lines.now.labels;
    }) }
{
    let targets = targets_of(alloc, labels, lines.labels.as_slice())?;
    Ok(TableSwitch {
        default: target_of(labels, &lines.default),
        low: lines.low,
        targets,
    })
}

/// Returns a case of a lookupswitch.
fn case_of(labels: &Labels<'_>, pair: &MatchLine) -> SwitchCase
    requires { length (operations labels.now) ≤ 65535 }
    ensures { result ≡ switch_case labels.now pair.now }
{
    SwitchCase {
        value: pair.value,
        target: target_of(labels, &pair.label),
    }
}

/// Returns the cases of a lookupswitch.
fn cases_of(
    alloc: Global,
    labels: &Labels<'_>,
    pairs: &[MatchLine],
) -> Result<Items<SwitchCase>, AllocError>
    requires { length (operations labels.now) ≤ 65535 }
    ensures { IfOk result (λ cases. cases ≡ map (switch_case labels.now) pairs.now) }
{
    let mut cases = Items::with_capacity(alloc, pairs.len())?;
    for pair in pairs {
        cases.push(case_of(labels, pair))?;
    }
    Ok(cases)
}

/// Returns a lookupswitch.
fn lookup_of(
    alloc: Global,
    labels: &Labels<'_>,
    lines: &LookupLines,
) -> Result<LookupSwitch, AllocError>
    requires { length (operations labels.now) ≤ 65535 }
    ensures { IfOk result (λ s. s ≡ record {
      default = target labels.now lines.now.default;
      cases = map (switch_case labels.now) lines.now.matches;
    }) }
{
    let cases = cases_of(alloc, labels, lines.matches.as_slice())?;
    Ok(LookupSwitch {
        default: target_of(labels, &lines.default),
        cases,
    })
}

/// Returns the instruction of an operation that names this pool entry.
#[tactic(auto, unfolding(assembly::specs::CodeOf::insn_of))]
fn insn_of(
    alloc: Global,
    labels: &Labels<'_>,
    number: u16,
    operation: &Operation,
) -> Result<Insn, AllocError>
    requires { length (operations labels.now) ≤ 65535 }
    ensures { IfOk result (λ i. i ≡ insn_of labels.now number operation.now) }
{
    match operation {
        Operation::Alone(code) => Ok(Insn::Simple(simple_of(*code))),
        Operation::PushByte(value) => Ok(pushed(i16::from(*value))),
        Operation::PushShort(value) => Ok(pushed(*value)),
        Operation::Constant(_, _) => Ok(Insn::Constant(number)),
        Operation::ConstantLong(_) => Ok(Insn::Constant(number)),
        Operation::Local(how, local) => Ok(Insn::Simple(Simple::Local(*how, *local))),
        Operation::Increment(local, by) => Ok(Insn::Simple(Simple::Increment(*local, *by))),
        Operation::Branch(_, how, label) => Ok(Insn::Branch(*how, target_of(labels, label))),
        Operation::Table(lines) => {
            let switch = table_of(alloc, labels, lines.get())?;
            Ok(Insn::Table(Boxed::new(alloc, switch)?))
        }
        Operation::Lookup(lines) => {
            let switch = lookup_of(alloc, labels, lines.get())?;
            Ok(Insn::Lookup(Boxed::new(alloc, switch)?))
        }
        Operation::Field(how, _) => Ok(Insn::Field(*how, number)),
        Operation::Invoke(how, _) => Ok(Insn::Invoke(*how, number)),
        Operation::Class(how, _) => Ok(Insn::Class(*how, number)),
        Operation::NewArray(component) => {
            Ok(Insn::Simple(Simple::Array(ArrayInsn::New(*component))))
        }
        Operation::MultiNewArray(_, count) => Ok(Insn::MultiNewArray(number, *count)),
    }
}

/// Returns the instructions of operations that name these pool entries.
#[tactic(auto, unfolding(assembly::specs::CodeOf::insns_from))]
pub(crate) fn insns_of(
    alloc: Global,
    labels: &Labels<'_>,
    operands: &[u16],
    items: &[CodeItem],
) -> Result<Items<Insn>, AllocError>
    requires { length (operations labels.now) ≤ 65535 }
    ensures { IfOk result
        (λ insns. insns ≡ insns_from labels.now operands.now (operations items.now)) }
{
    let mut insns = Items::with_capacity(alloc, operands.len())?;
    let mut numbers = operands;
    let mut rest = items;
    while let [number, others @ ..] = numbers {
        let Some((operation, behind)) = next_operation(rest) else {
            return Ok(insns);
        };
        insns.push(insn_of(alloc, labels, *number, operation)?)?;
        numbers = others;
        rest = behind;
    }
    Ok(insns)
}
