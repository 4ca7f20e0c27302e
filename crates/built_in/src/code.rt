//! Instructions of the built-in classes' methods.

ghost use Rattle.std.specs.Prelude.{◌≡◌, IfOk};
ghost use Rattle.jvms_program.specs.BuiltIn.{load, return_void, return_reference, field_insn, target_field, call_run, message_field};

use descriptor::{field_type, method_type};
use jvms_file::insn::{FieldUse, Invoke, Kind, LocalUse, ReturnInsn, Simple};
use jvms_program::program::{FieldReference, Instruction, MethodReference};
use shared_data::boxed::Boxed;
use shared_data::shared::Shared;
use shared_data::texts::ascii_text;
use std::alloc::{AllocError, Global};

/// Creates the instruction that pushes the reference in a local.
pub(crate) fn load(local: u16) -> Instruction
    ensures { result ≡ load local }
{
    Instruction::Simple(Simple::Local(LocalUse::Load(Kind::Reference), local))
}

/// Creates the instruction that returns nothing.
pub(crate) fn return_void() -> Instruction
    ensures { result ≡ return_void }
{
    Instruction::Simple(Simple::Return(ReturnInsn::Void))
}

/// Creates the instruction that returns a reference.
pub(crate) fn return_reference() -> Instruction
    ensures { result ≡ return_reference }
{
    Instruction::Simple(Simple::Return(ReturnInsn::Value(Kind::Reference)))
}

/// Creates an instruction on a field.
fn field_insn(
    alloc: Global,
    how: FieldUse,
    class: &str,
    name: &str,
    descriptor: &str,
) -> Result<Instruction, AllocError>
    ensures { IfOk result (λ i. i ≡ field_insn how class.now name.now descriptor.now) }
{
    let class = ascii_text(alloc, class)?;
    let name = ascii_text(alloc, name)?;
    let descriptor = ascii_text(alloc, descriptor)?;
    let field_type = Shared::new(alloc, field_type(alloc, descriptor.as_slice())?)?;
    let reference = FieldReference {
        class,
        name,
        descriptor,
        field_type,
    };
    Ok(Instruction::Field(how, Boxed::new(alloc, reference)?))
}

/// Creates an instruction on a thread's target.
pub(crate) fn target_field(alloc: Global, how: FieldUse) -> Result<Instruction, AllocError>
    ensures { IfOk result (λ i. i ≡ target_field how) }
{
    field_insn(
        alloc,
        how,
        "java/lang/Thread",
        "target",
        "Ljava/lang/Runnable;",
    )
}

/// Creates an instruction on a Throwable's message.
pub(crate) fn message_field(alloc: Global, how: FieldUse) -> Result<Instruction, AllocError>
    ensures { IfOk result (λ i. i ≡ message_field how) }
{
    field_insn(
        alloc,
        how,
        "java/lang/Throwable",
        "message",
        "Ljava/lang/String;",
    )
}

/// Creates the instruction that calls a Runnable's run.
pub(crate) fn call_run(alloc: Global) -> Result<Instruction, AllocError>
    ensures { IfOk result (λ i. i ≡ call_run) }
{
    let class = ascii_text(alloc, "java/lang/Runnable")?;
    let name = ascii_text(alloc, "run")?;
    let descriptor = ascii_text(alloc, "()V")?;
    let method_type = Shared::new(alloc, method_type(alloc, descriptor.as_slice())?)?;
    let reference = MethodReference {
        is_interface: true,
        class,
        name,
        descriptor,
        method_type,
    };
    let reference = Boxed::new(alloc, reference)?;
    Ok(Instruction::Invoke(Invoke::Interface, reference))
}
