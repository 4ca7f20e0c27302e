//! Converts instructions to operations as they are spelled (JVMS 6.5).

ghost use Rattle.std.specs.Prelude.{◌≡◌, IfOk};
ghost use Rattle.listing_spec.specs.Faults.{Lists};
ghost use Rattle.listing_spec.specs.TreeOf.{simple_operation, operation_with, operation_of};
ghost use Rattle.class_tree.specs.Operations.{field_operation, invoke_operation, table_operation, lookup_operation};

use crate::constants::{constant_operation, long_of};
use crate::labels::label_of;
use crate::opcodes::{form_or_reserved, opcode_at};
use crate::references::{field_name, method_name};
use crate::switches::{lookup_lines, table_lines};
use crate::texts::Texts;
use jasmin::source::{BranchWidth, ConstantWidth, Operation};
use jvms_file::insn::{
    ArrayInsn, Branch, FieldUse, Insn, Invoke, LookupSwitch, Opcode, Push, Simple, TableSwitch,
};
use listing_spec::fault::ListFault;
use shared_data::boxed::Boxed;
use std::alloc::{AllocError, Global};

/// Returns a `bipush`, or the opcode by itself if the number doesn't fit a byte.
fn push_byte(code: u8, n: i16) -> Operation
    ensures { result ≡ simple_operation code Opcode.PushByte (Simple.Push (Push.Int n)) }
{
    if n >= -128 && n <= 127 {
        Operation::PushByte(n as i8)
    } else {
        Operation::Alone(code)
    }
}

/// Returns the operation of an instruction that names neither a pool entry nor a place, by the form of its opcode.
fn simple_operation(code: u8, form: Opcode, simple: Simple) -> Operation
    ensures { result ≡ simple_operation code form simple }
{
    match (form, simple) {
        (Opcode::PushByte, Simple::Push(Push::Int(n))) => push_byte(code, n),
        (Opcode::PushShort, Simple::Push(Push::Int(n))) => Operation::PushShort(n),
        (Opcode::Local(how), Simple::Local(_, n)) => Operation::Local(how, n),
        (Opcode::Increment, Simple::Increment(n, by)) => Operation::Increment(n, by),
        (Opcode::NewArray, Simple::Array(ArrayInsn::New(component))) => {
            Operation::NewArray(component)
        }
        _ => Operation::Alone(code),
    }
}

/// Returns a load of a constant.
#[tactic(auto, unfolding(listing_spec::specs::TreeOf::operation_with))]
fn load_operation(
    alloc: Global,
    texts: &Texts<'_>,
    code: u8,
    form: Opcode,
    number: u16,
) -> Result<Operation, ListFault>
    ensures { Lists result (operation_with texts.now code form (Insn.Constant number)) }
{
    match form {
        Opcode::Constant => constant_operation(alloc, texts, ConstantWidth::AsNeeded, number),
        Opcode::ConstantWide => constant_operation(alloc, texts, ConstantWidth::Wide, number),
        _ => long_of(texts, number),
    }
}

/// Returns a branch with one target.
#[tactic(auto, unfolding(listing_spec::specs::TreeOf::operation_with))]
fn branch_operation(
    alloc: Global,
    texts: &Texts<'_>,
    code: u8,
    form: Opcode,
    how: Branch,
    target: u32,
) -> Result<Operation, ListFault>
    ensures { Lists result (operation_with texts.now code form (Insn.Branch how target)) }
{
    let label = label_of(alloc, target as usize)?;
    match form {
        Opcode::BranchWide(wide) => Ok(Operation::Branch(BranchWidth::Wide, wide, label)),
        _ => Ok(Operation::Branch(BranchWidth::Short, how, label)),
    }
}

/// Returns a tableswitch.
fn table_operation(alloc: Global, switch: &TableSwitch) -> Result<Operation, AllocError>
    ensures { IfOk result (λ o. o ≡ table_operation switch.now) }
{
    let lines = table_lines(alloc, switch)?;
    Ok(Operation::Table(Boxed::new(alloc, lines)?))
}

/// Returns a lookupswitch.
fn lookup_operation(alloc: Global, switch: &LookupSwitch) -> Result<Operation, AllocError>
    ensures { IfOk result (λ o. o ≡ lookup_operation switch.now) }
{
    let lines = lookup_lines(alloc, switch)?;
    Ok(Operation::Lookup(Boxed::new(alloc, lines)?))
}

/// Returns an instruction that names a field.
fn field_operation(
    alloc: Global,
    texts: &Texts<'_>,
    how: FieldUse,
    number: u16,
) -> Result<Operation, AllocError>
    ensures { IfOk result (λ o. o ≡ field_operation texts.now how number) }
{
    let field = field_name(texts, number)?;
    Ok(Operation::Field(how, Boxed::new(alloc, field)?))
}

/// Returns an instruction that names a method.
fn invoke_operation(
    alloc: Global,
    texts: &Texts<'_>,
    how: Invoke,
    number: u16,
) -> Result<Operation, AllocError>
    ensures { IfOk result (λ o. o ≡ invoke_operation texts.now how number) }
{
    let method = method_name(texts, number)?;
    Ok(Operation::Invoke(how, Boxed::new(alloc, method)?))
}

/// Returns an instruction as it is spelled, by its opcode and the opcode's form.
#[tactic(auto, unfolding(listing_spec::specs::TreeOf::operation_with))]
fn operation_with(
    alloc: Global,
    texts: &Texts<'_>,
    code: u8,
    form: Opcode,
    insn: &Insn,
) -> Result<Operation, ListFault>
    ensures { Lists result (operation_with texts.now code form insn.now) }
{
    match insn {
        Insn::Simple(simple) => Ok(simple_operation(code, form, *simple)),
        Insn::Constant(n) => load_operation(alloc, texts, code, form, *n),
        Insn::Branch(how, target) => branch_operation(alloc, texts, code, form, *how, *target),
        Insn::Table(switch) => Ok(table_operation(alloc, switch.get())?),
        Insn::Lookup(switch) => Ok(lookup_operation(alloc, switch.get())?),
        Insn::Field(how, n) => Ok(field_operation(alloc, texts, *how, *n)?),
        Insn::Invoke(how, n) => Ok(invoke_operation(alloc, texts, *how, *n)?),
        Insn::Class(how, n) => Ok(Operation::Class(*how, texts.class_name(*n)?)),
        Insn::MultiNewArray(n, count) => {
            Ok(Operation::MultiNewArray(texts.class_name(*n)?, *count))
        }
    }
}

/// Returns an instruction as its bytes spell it, which start at `pc`.
pub(crate) fn operation_of(
    alloc: Global,
    texts: &Texts<'_>,
    bytes: &[u8],
    pc: u32,
    insn: &Insn,
) -> Result<Operation, ListFault>
    ensures { Lists result (operation_of texts.now bytes.now pc insn.now) }
{
    let code = opcode_at(bytes, pc);
    operation_with(alloc, texts, code, form_or_reserved(code), insn)
}
