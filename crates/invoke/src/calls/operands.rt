//! The operands of a call instruction (JVMS 6.5 `invokeinterface`, `invokespecial`, `invokestatic`, `invokevirtual`):
//! its arguments, and the receiver below them, if it has one.

ghost use Rattle.jvms_file.specs.Descriptors.{parameter_units as units};
ghost use Rattle.jvms_file.specs.declared.descriptor.MethodType.{MethodType as MeantType};
ghost use Rattle.std.specs.Prelude.{◌≡◌, ◌+◌, ◌≤◌, false, length, MatchOption, Some, slice_get};
ghost use Rattle.jvms_machine.specs.State.{result_length};
ghost use Rattle.jvms_machine.specs.Activations.{has_depth};
ghost use Rattle.jvms_machine.specs.Calls.{slots_of_call, are_of_types, receiver_of, are_of_call};
ghost use Rattle.invoke.specs.Calling.{Takes};

use descriptor::parameter_units;
use frames::Frame;
use jvms_file::descriptor::{FieldType, MethodType, ResultType};
use jvms_file::insn::{Invoke, Kind};
use jvms_machine::value::Value;
use jvms_program::uses::is_static_call;
use machine_parts::exec::is_of_kind;
use machine_parts::{kind_of_type, type_size};

/// Returns the number of operands that a call instruction takes, where its arguments take `arguments`.
fn slots_of_call(how: Invoke, arguments: usize) -> usize
    requires { arguments ≤ 65535 }
    ensures { (t : MeantType) → arguments ≡ units t → result ≡ slots_of_call how t }
{
    if is_static_call(how) {
        arguments
    } else {
        arguments + 1
    }
}

/// Returns the number of operands of a method's result.
fn given(t: &ResultType) -> usize
    ensures { result ≡ result_length t.now }
{
    match t {
        ResultType::Void => 0,
        ResultType::Value(t) => usize::from(type_size(t)),
    }
}

/// Returns the number of operands that a call takes, if they are present and the result fits `max_stack`.
pub(crate) fn taken_from(frame: &Frame, how: Invoke, t: &MethodType) -> Option<u16>
    ensures { MatchOption result (has_depth frame.now.body (slots_of_call how t.now)
        (result_length t.now.result) frame.now.activation ≡ false)
        (λ takes. Takes frame.now how t.now takes) }
{
    let arguments = parameter_units(t);
    let height = usize::from(frame.height());
    if arguments > height {
        return None;
    }
    let takes = slots_of_call(how, arguments);
    let most = usize::from(frame.body().max_stack);
    if takes <= height && height - takes + given(&t.result) <= most {
        Some(takes as u16)
    } else {
        None
    }
}

/// Decides whether the slots hold values of the types, one value for each type. A long takes two slots.
fn are_of_types(types: &[FieldType], places: &[Value]) -> bool
    ensures { result ≡ are_of_types types.now places.now }
{
    let mut rest = places;
    for t in types {
        let kind = kind_of_type(t);
        match rest {
            [value @ Value::Long(_), Value::Second, behind @ ..] if is_of_kind(kind, *value) => {
                rest = behind;
            }
            [] | [Value::Long(_), ..] => return false,
            [value, behind @ ..] if is_of_kind(kind, *value) => rest = behind,
            [_, ..] => return false,
        }
    }
    rest.is_empty()
}

/// Returns the operand below the arguments of a call that has a receiver.
#[inline(always)]
pub(crate) fn receiver(t: &MethodType, frame: &Frame, takes: u16) -> Value
    requires is { takes ≡ units t.now + 1 }
    requires there { takes ≤ length frame.now.activation.operands }
    ensures { receiver_of t.now frame.now.activation.operands ≡ Some result }
{
    frame.operand(usize::from(takes) - 1)
}

/// Decides whether the operands of a call are of the kinds in its descriptor, and whether the receiver is a reference
/// or null.
pub(crate) fn are_of_call(how: Invoke, t: &MethodType, frame: &Frame, takes: u16) -> bool
    requires takes { Takes frame.now how t.now takes }
    ensures { result ≡ are_of_call how t.now frame.now.activation.operands }
{
    let types = t.parameters.as_slice();
    if is_static_call(how) {
        return are_of_types(types, frame.arguments(usize::from(takes)));
    }
    are_of_types(types, frame.arguments(usize::from(takes) - 1))
        && is_of_kind(Kind::Reference, receiver(t, frame, takes))
}
