//! Loads and stores of array elements (JVMS 6.5 `aaload` to `saload`, `aastore` to `sastore`).

ghost use Rattle.std.specs.Prelude.{◌≡◌, ◌+◌, ◌<◌, ◌≤◌, ◌^◌, drop, length};
ghost use Rattle.std.specs.Option.{option_and_then};
ghost use Rattle.jvms_machine.specs.Arrays.{if_deep, element_size, fits_component, kind_of_elements, load_operands, store_below, store_operands};
ghost use Rattle.jvms_machine.specs.Places.{top_value};
ghost use Rattle.jvms_machine.specs.State.{object_at};
ghost use Rattle.exec_ref.specs.Asked.{element_by, loads_from, stores_to};
ghost use Rattle.machine_parts.specs.Decided.{decision_value};

use super::components::{component_class, component_type, is_reference_kind, serves};
use frames::Frame;
use jvms_file::insn::ArrayKind;
use jvms_machine::action::Effect;
use jvms_machine::machine::BadCause;
use jvms_machine::value::Value;
use jvms_program::thrown::Thrown;
use machine_parts::exec::{element_size, kind_of_elements, top_value};
use machine_parts::machine_thread::Thread;
use machine_parts::{
    Decided, Parts, bad, has_depth, never_seen, next_action, reaches, read_decision,
    stored_in_component,
};

/// Returns an array's element by an int index, or `None` if that is negative or not below the length.
#[inline(always)]
fn element_at(parts: &Parts, reference: u32, n: i32) -> Option<Value>
    ensures { result ≡ option_and_then (element_by n) (object_at parts.now.state.heap reference) }
{
    if n < 0 {
        return None;
    }
    parts.heap.element(reference, n.unsigned_abs() as usize)
}

/// Decides a load from the object of a reference. It tests that this is an array of the kind, then the index.
#[inline(always)]
fn load_from<'p>(
    parts: &Parts<'p>,
    thread: &Thread,
    frame: &Frame,
    kind: ArrayKind,
    n: i32,
    reference: u32,
) -> Decided<'p>
    ensures { decision_value result
        ≡ loads_from parts.now.limits parts.now.state thread.now frame.now kind n reference }
{
    let Some(class) = parts.heap.class_of(reference) else {
        return never_seen();
    };
    if parts.heap.array_length(reference).is_none() {
        return bad(BadCause::Kind);
    }
    if !serves(kind, component_type(class)) {
        return bad(BadCause::Kind);
    }
    match element_at(parts, reference, n) {
        None => parts.throws(thread, Thrown::ArrayIndexOutOfBoundsException),
        Some(value) => {
            let index = n.unsigned_abs();
            read_decision(frame, Effect::LoadElement { reference, index }, 2, value)
        }
    }
}

/// Decides a load. The index is the topmost operand, and the array is below it.
#[inline(always)]
pub(crate) fn load_decision<'p>(
    parts: &Parts<'p>,
    thread: &Thread,
    frame: &Frame,
    kind: ArrayKind,
) -> Decided<'p>
    ensures { decision_value result
        ≡ if_deep frame.now 2 (element_size kind)
        (load_operands parts.now.limits parts.now.state thread.now frame.now kind
        frame.now.activation.operands) }
{
    if !has_depth(frame, 2, element_size(kind)) {
        return bad(BadCause::Depth);
    }
    let (array, Value::Int(n)) = frame.top_two() else {
        return bad(BadCause::Kind);
    };
    match array {
        Value::Reference(reference) => load_from(parts, thread, frame, kind, n, reference),
        Value::Null => parts.throws(thread, Thrown::NullPointerException),
        Value::Int(_) | Value::Long(_) | Value::Second | Value::ReturnAddress(_) | Value::Unset =>
            bad(BadCause::Kind),
    }
}

/// Decides the store check of JVMS 6.5 `aastore`: null passes, and so does an object whose class fits the component's.
fn fits_component(parts: &Parts, class: &[u16], value: Value) -> bool
    ensures { result ≡ fits_component parts.now.program parts.now.state class.now value }
{
    let Value::Reference(reference) = value else {
        return true;
    };
    match parts.heap.object_class(reference) {
        None => false,
        Some(stored) => stored.fits(parts.program(), component_class(class)),
    }
}

/// Decides a store to the object of a reference. It tests that this is an array of the kind, then the index, then the
/// store check.
#[inline(always)]
fn store_to<'p>(
    parts: &Parts<'p>,
    thread: &Thread,
    frame: &Frame,
    kind: ArrayKind,
    value: Value,
    n: i32,
    reference: u32,
) -> Decided<'p>
    requires { frame.now.activation.place + 1 < 2 ^ 64 }
    ensures { decision_value result ≡ stores_to parts.now.limits parts.now.state thread.now
        parts.now.program frame.now.activation kind value n reference }
{
    let Some(class) = parts.heap.class_of(reference) else {
        return never_seen();
    };
    if parts.heap.array_length(reference).is_none() {
        return bad(BadCause::Kind);
    }
    let component = component_type(class);
    if !serves(kind, component) {
        return bad(BadCause::Kind);
    }
    if element_at(parts, reference, n).is_none() {
        return parts.throws(thread, Thrown::ArrayIndexOutOfBoundsException);
    }
    if is_reference_kind(kind) && !fits_component(parts, class, value) {
        return parts.throws(thread, Thrown::ArrayStoreException);
    }
    let stored = Effect::StoreElement {
        reference,
        index: n.unsigned_abs(),
        value: stored_in_component(component, value),
    };
    reaches(
        stored,
        next_action(2 + u16::from(element_size(kind)), frame),
    )
}

/// Decides a store of a value. Below the value are the index and then the array.
#[inline(always)]
fn store_below<'p>(
    parts: &Parts<'p>,
    thread: &Thread,
    frame: &Frame,
    kind: ArrayKind,
    value: Value,
) -> Decided<'p>
    requires place { frame.now.activation.place + 1 < 2 ^ 64 }
    requires there { 2 + element_size kind ≤ length frame.now.activation.operands }
    ensures { decision_value result
        ≡ store_below parts.now.program parts.now.limits parts.now.state thread.now
        frame.now.activation kind value (drop (element_size kind) frame.now.activation.operands) }
{
    let (array, Value::Int(n)) = frame.two_below(usize::from(element_size(kind))) else {
        return bad(BadCause::Kind);
    };
    match array {
        Value::Reference(reference) => store_to(parts, thread, frame, kind, value, n, reference),
        Value::Null => parts.throws(thread, Thrown::NullPointerException),
        Value::Int(_) | Value::Long(_) | Value::Second | Value::ReturnAddress(_) | Value::Unset =>
            bad(BadCause::Kind),
    }
}

/// Decides a store. The value is the topmost operand, the index is below it, and then the array.
#[inline(always)]
pub(crate) fn store_decision<'p>(
    parts: &Parts<'p>,
    thread: &Thread,
    frame: &Frame,
    kind: ArrayKind,
) -> Decided<'p>
    requires { frame.now.activation.place + 1 < 2 ^ 64 }
    ensures { decision_value result ≡ if_deep frame.now (2 + element_size kind) 0 (store_operands
        parts.now.program parts.now.limits parts.now.state thread.now frame.now.activation kind
        (top_value (kind_of_elements kind) frame.now.activation.operands)) }
{
    if !has_depth(frame, 2 + element_size(kind), 0) {
        return bad(BadCause::Depth);
    }
    match top_value(kind_of_elements(kind), frame) {
        None => bad(BadCause::Kind),
        Some(value) => store_below(parts, thread, frame, kind, value),
    }
}
