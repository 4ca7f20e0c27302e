//! Decides why an instruction can't run.

ghost use Rattle.std.specs.Prelude.{◌≡◌};
ghost use Rattle.std.specs.Result.{result_err};
ghost use Rattle.jvms_program.specs.Resolution.{is_static_call, is_static_use, resolved_field, resolved_method};
ghost use Rattle.needs.specs.Lacks.{absence, constant_error, first_lack, lack_of, resolution_error};

use crate::outside::is_outside;
use jvms_file::insn::{FieldUse, Invoke};
use jvms_program::program::{FieldReference, Instruction, Loadable, MethodReference};
use jvms_program::thrown::Thrown;
use jvms_program::uses::{is_static_call, is_static_use};
use program::Program;

/// A reason why an instruction can't run.
#[derive(Clone, Copy, Debug, PartialEq, Eq)]
pub enum Lack {
    /// An error of resolution: what the instruction names can't be resolved, and an error of this class is thrown.
    Unresolved(Thrown),
    /// The instruction is outside of the profile.
    OutOfProfile,
}

/// Returns the error that is thrown if no class has this name.
fn absence(program: &Program, name: &[u16]) -> Option<Thrown>
    ensures { result ≡ absence program.now name.now }
{
    if program.has_class(name) {
        None
    } else {
        Some(Thrown::NoClassDefFoundError)
    }
}

/// Returns the error that is thrown if a constant names a missing class.
fn constant_error(program: &Program, constant: &Loadable) -> Option<Thrown>
    ensures { result ≡ constant_error program.now constant.now }
{
    match constant {
        Loadable::Class(name) => absence(program, name.as_slice()),
        _ => None,
    }
}

/// Returns the error that is thrown if a field can't be resolved.
fn field_error(program: &Program, how: FieldUse, field: &FieldReference) -> Option<Thrown>
    ensures { result ≡ result_err (resolved_field program.now (is_static_use how) field.now) }
{
    program.resolve_field(is_static_use(how), field).err()
}

/// Returns the error that is thrown if a method can't be resolved.
fn method_error(program: &Program, how: Invoke, method: &MethodReference) -> Option<Thrown>
    ensures { result ≡ result_err (resolved_method program.now (is_static_call how) method.now) }
{
    program.resolve_method(is_static_call(how), method).err()
}

/// Returns the error that is thrown if resolution of what an instruction names fails.
fn resolution_error(program: &Program, instruction: &Instruction) -> Option<Thrown>
    ensures { result ≡ resolution_error program.now instruction.now }
{
    match instruction {
        Instruction::Field(how, field) => field_error(program, *how, field.get()),
        Instruction::Invoke(how, method) => method_error(program, *how, method.get()),
        Instruction::Class(_, name) | Instruction::MultiNewArray(_, name) => {
            absence(program, name.as_slice())
        }
        Instruction::Constant(constant) => constant_error(program, constant.get()),
        _ => None,
    }
}

/// Returns the first of two reasons why an instruction can't run: an error, else that it is outside of the profile.
fn first_lack(error: Option<Thrown>, is_outside: bool) -> Option<Lack>
    ensures { result ≡ first_lack error is_outside }
{
    match error {
        Some(error) => Some(Lack::Unresolved(error)),
        None if is_outside => Some(Lack::OutOfProfile),
        None => None,
    }
}

/// Returns the reason why an instruction can't run, if there is one.
pub(crate) fn lack_of(program: &Program, instruction: &Instruction) -> Option<Lack>
    ensures { result ≡ lack_of program.now instruction.now }
{
    first_lack(
        resolution_error(program, instruction),
        is_outside(instruction),
    )
}
