//! The sizes of values in slots (JVMS 2.6.1, 2.6.2): a long takes two.

ghost use Rattle.std.specs.Prelude.{◌≡◌, ◌≤◌};
ghost use Rattle.jvms_machine.specs.Arrays.{element_size, kind_of_elements};
ghost use Rattle.jvms_machine.specs.Places.{is_of_kind, kind_size, top_value, value_size};

use frames::Frame;
use jvms_file::insn::{ArrayKind, Kind};
use jvms_machine::value::Value;

/// Returns the number of slots that a value takes.
#[inline(always)]
pub fn value_size(value: Value) -> u8
    ensures { result ≡ value_size value }
{
    match value {
        Value::Long(_) => 2,
        Value::Int(_)
        | Value::Second
        | Value::Null
        | Value::Reference(_)
        | Value::ReturnAddress(_)
        | Value::Unset => 1,
    }
}

/// Returns the number of slots that a value of a kind takes.
#[inline(always)]
pub fn kind_size(kind: Kind) -> u8
    ensures exact { result ≡ kind_size kind }
    ensures few { result ≤ 2 }
{
    match kind {
        Kind::Long | Kind::Double => 2,
        Kind::Int | Kind::Float | Kind::Reference => 1,
    }
}

/// Returns the kind of value that an instruction on arrays of a kind loads or stores.
#[inline(always)]
pub fn kind_of_elements(kind: ArrayKind) -> Kind
    ensures { result ≡ kind_of_elements kind }
{
    match kind {
        ArrayKind::Reference => Kind::Reference,
        ArrayKind::Long => Kind::Long,
        ArrayKind::Float => Kind::Float,
        ArrayKind::Double => Kind::Double,
        ArrayKind::Int | ArrayKind::Byte | ArrayKind::Char | ArrayKind::Short => Kind::Int,
    }
}

/// Returns the number of operand slots of an element that an array instruction of a kind loads or stores.
#[inline(always)]
pub fn element_size(kind: ArrayKind) -> u8
    ensures exact { result ≡ element_size kind }
    ensures few { result ≤ 2 }
{
    kind_size(kind_of_elements(kind))
}

/// Decides whether a value is of a kind. Null is of the kind of references.
#[inline(always)]
pub fn is_of_kind(kind: Kind, value: Value) -> bool
    ensures { result ≡ is_of_kind kind value }
{
    match value {
        Value::Int(_) => kind == Kind::Int,
        Value::Long(_) => kind == Kind::Long,
        Value::Null | Value::Reference(_) => kind == Kind::Reference,
        Value::Second | Value::ReturnAddress(_) | Value::Unset => false,
    }
}

/// Returns the long on top of the operands, if there is one.
#[inline(always)]
fn top_long(frame: &Frame) -> Option<Value>
    ensures { result ≡ top_value Kind.Long frame.now.activation.operands }
{
    if frame.height() < 2 {
        return None;
    }
    match frame.top_two() {
        (Value::Long(n), Value::Second) => Some(Value::Long(n)),
        _ => None,
    }
}

/// Returns the value of a kind on top of the operands, if there is one.
#[inline(always)]
pub fn top_value(kind: Kind, frame: &Frame) -> Option<Value>
    ensures { result ≡ top_value kind frame.now.activation.operands }
{
    if kind == Kind::Long {
        return top_long(frame);
    }
    if frame.height() < 1 {
        return None;
    }
    let value = frame.top();
    if is_of_kind(kind, value) {
        Some(value)
    } else {
        None
    }
}
