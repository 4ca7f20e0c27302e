//! Decides which instructions are outside of the profile: those of floats and doubles, and `new` of some built-in
//! classes.

ghost use Rattle.std.specs.Prelude.{◌≡◌, not};
ghost use Rattle.jvms_machine.specs.Locals.{is_profile_kind};
ghost use Rattle.needs.specs.Outside.{is_outside, is_outside_constant, is_outside_local, is_outside_push, is_outside_return, is_outside_simple};

use exec::{
    is_outside_array, is_outside_class, is_outside_method, is_outside_type, is_outside_use,
};
use jvms_file::insn::{Kind, LocalUse, Push, ReturnInsn, Simple};
use jvms_program::program::{Instruction, Loadable};

/// Returns whether a value of a kind is a float or a double.
fn is_floating(kind: Kind) -> bool
    ensures { result ≡ not (is_profile_kind kind) }
{
    matches!(kind, Kind::Float | Kind::Double)
}

/// Returns whether an instruction pushes a float or a double.
fn is_outside_push(what: Push) -> bool
    ensures { result ≡ is_outside_push what }
{
    matches!(what, Push::Float(_) | Push::Double(_))
}

/// Returns whether an instruction loads or stores a float or a double in a local variable.
fn is_outside_local(how: LocalUse) -> bool
    ensures { result ≡ is_outside_local how }
{
    match how {
        LocalUse::Load(kind) | LocalUse::Store(kind) => is_floating(kind),
        LocalUse::Return => false,
    }
}

/// Returns whether an instruction returns a float or a double.
fn is_outside_return(how: ReturnInsn) -> bool
    ensures { result ≡ is_outside_return how }
{
    match how {
        ReturnInsn::Void => false,
        ReturnInsn::Value(kind) => is_floating(kind),
    }
}

/// Returns whether an instruction that names neither a class nor a member is outside of the profile.
fn is_outside_simple(instruction: Simple) -> bool
    ensures { result ≡ is_outside_simple instruction }
{
    match instruction {
        Simple::Push(what) => is_outside_push(what),
        Simple::Local(how, _) => is_outside_local(how),
        Simple::Floating(_) => true,
        Simple::Array(what) => is_outside_array(what),
        Simple::Return(how) => is_outside_return(how),
        _ => false,
    }
}

/// Returns whether a constant is a float or a double.
fn is_outside_constant(constant: &Loadable) -> bool
    ensures { result ≡ is_outside_constant constant.now }
{
    matches!(constant, Loadable::Float(_) | Loadable::Double(_))
}

/// Returns whether an instruction is outside of the profile.
pub(crate) fn is_outside(instruction: &Instruction) -> bool
    ensures { result ≡ is_outside instruction.now }
{
    match instruction {
        Instruction::Simple(simple) => is_outside_simple(*simple),
        Instruction::Constant(constant) => is_outside_constant(constant.get()),
        Instruction::Field(_, field) => is_outside_type(field.get().field_type.get()),
        Instruction::Invoke(_, method) => is_outside_method(method.get().method_type.get()),
        Instruction::Class(how, name) => is_outside_use(*how, name.as_slice()),
        Instruction::MultiNewArray(_, name) => is_outside_class(name.as_slice()),
        _ => false,
    }
}
