//! Arrays (JVMS 6.5 newarray, anewarray, multianewarray, arraylength, and the loads and stores of arrays).

ghost use Rattle.std.specs.Prelude.{◌≡◌, ◌+◌, ◌<◌, ◌^◌, IsTrue, length};
ghost use Rattle.jvms_machine.specs.Arrays.{if_deep, creation_decision, length_decision, new_array_decision, new_class_array_decision, array_length_decision, array_decision};
ghost use Rattle.jvms_machine.specs.Heap.{has_room_for_elements};
ghost use Rattle.exec_ref.specs.Asked.{reference_length_decision};
ghost use Rattle.machine_parts.specs.Decided.{decision_value, object_value, text_of};

mod components;
pub(crate) mod elements;
pub(crate) mod many;

use crate::arrays::elements::{load_decision, store_decision};
use frames::Frame;
use jvms_file::insn::{ArrayInsn, ArrayType};
use jvms_machine::action::{Effect, FrameAction, NewObject};
use jvms_machine::machine::BadCause;
use jvms_machine::value::Value;
use jvms_program::thrown::Thrown;
use machine_parts::machine_thread::Thread;
use machine_parts::{ActionText, Decided, Parts, bad, has_depth, never_seen, reaches};
use shared_data::shared::Text;

/// Decides whether the limits allow `objects` more objects and `elements` more array elements.
pub(crate) fn has_room_for_elements(parts: &Parts, objects: usize, elements: usize) -> bool
    ensures exact { result
        ≡ has_room_for_elements objects elements parts.now.limits parts.now.state }
    // Each of their references fits 32 bits.
    ensures number { IsTrue result → length parts.now.state.heap + objects < 2 ^ 32 }
{
    let most = parts.limits.elements as usize;
    let count = parts.heap.elements() as usize;
    parts.has_room_for(objects) && count <= most && elements <= most - count
}

/// Returns the decision to create an object that replaces the topmost `takes` operands.
pub(crate) fn creation_decision<'p>(
    parts: &Parts<'p>,
    takes: u8,
    what: NewObject<ActionText<'p>>,
) -> Decided<'p>
    requires { length parts.now.state.heap + 1 < 2 ^ 32 }
    ensures { decision_value result
        ≡ creation_decision parts.now.state takes (object_value what.entry) }
{
    let value = Value::Reference(parts.heap.count() as u32 + 1);
    reaches(Effect::Creates(what), FrameAction::Push { takes, value })
}

/// Decides the creation of an array with a length. It tests that the length isn't negative, then that there is room for
/// the array and its elements.
fn length_decision<'p>(
    parts: &Parts<'p>,
    thread: &Thread,
    class: ActionText<'p>,
    n: i32,
) -> Decided<'p>
    ensures { decision_value result
        ≡ length_decision parts.now.limits parts.now.state thread.now (text_of class.entry) n }
{
    if n < 0 {
        return parts.throws(thread, Thrown::NegativeArraySizeException);
    }
    let length = n.unsigned_abs();
    if !has_room_for_elements(parts, 1, length as usize) {
        return parts.throws(thread, Thrown::OutOfMemoryError);
    }
    creation_decision(parts, 1, NewObject::Array { class, length })
}

/// Decides JVMS 6.5 `newarray`.
fn new_array_decision<'p>(
    parts: &Parts<'p>,
    thread: &Thread,
    frame: &Frame,
    t: ArrayType,
) -> Decided<'p>
    ensures { decision_value result
        ≡ new_array_decision parts.now.limits parts.now.state thread.now frame.now t }
{
    if !has_depth(frame, 1, 1) {
        return bad(BadCause::Depth);
    }
    let Value::Int(n) = frame.top() else {
        return bad(BadCause::Kind);
    };
    length_decision(parts, thread, ActionText::ArrayOfType(t), n)
}

/// Decides JVMS 6.5 `anewarray`. The component's class is resolved before the length is tested.
pub(crate) fn new_class_array_decision<'p>(
    parts: &Parts<'p>,
    thread: &Thread,
    frame: &Frame,
    name: &'p Text,
) -> Decided<'p>
    ensures { decision_value result ≡ new_class_array_decision parts.now.program
        parts.now.limits parts.now.state thread.now frame.now name.now }
{
    if !has_depth(frame, 1, 1) {
        return bad(BadCause::Depth);
    }
    let Value::Int(n) = frame.top() else {
        return bad(BadCause::Kind);
    };
    if !parts.program().has_class(name.as_slice()) {
        return parts.throws(thread, Thrown::NoClassDefFoundError);
    }
    length_decision(parts, thread, ActionText::ArrayOfClass(name), n)
}

/// Decides to replace the array of this reference by its length.
#[inline(always)]
fn reference_length_decision<'p>(parts: &Parts<'p>, thread: &Thread, reference: u32) -> Decided<'p>
    ensures { decision_value result
        ≡ reference_length_decision parts.now.limits parts.now.state thread.now reference }
{
    if parts.heap.class_of(reference).is_none() {
        return never_seen();
    }
    match parts.heap.array_length(reference) {
        None => bad(BadCause::Kind),
        Some(length) => {
            let value = Value::Int(length as i32);
            reaches(Effect::Nothing, FrameAction::Push { takes: 1, value })
        }
    }
}

/// Decides JVMS 6.5 `arraylength`.
#[inline(always)]
fn array_length_decision<'p>(parts: &Parts<'p>, thread: &Thread, frame: &Frame) -> Decided<'p>
    ensures { decision_value result ≡ if_deep frame.now 1 1 (array_length_decision parts.now.limits
        parts.now.state thread.now frame.now.activation.operands) }
{
    if !has_depth(frame, 1, 1) {
        return bad(BadCause::Depth);
    }
    match frame.top() {
        Value::Reference(reference) => reference_length_decision(parts, thread, reference),
        Value::Null => parts.throws(thread, Thrown::NullPointerException),
        Value::Int(_) | Value::Long(_) | Value::Second | Value::ReturnAddress(_) | Value::Unset =>
            bad(BadCause::Kind),
    }
}

/// Decides the array instructions that name no class.
#[inline(always)]
#[tactic(auto, unfolding(jvms_machine::specs::Arrays::array_decision))]
pub fn array_decision<'p>(
    parts: &Parts<'p>,
    thread: &Thread,
    frame: &Frame,
    what: ArrayInsn,
) -> Decided<'p>
    requires { frame.now.activation.place + 1 < 2 ^ 64 }
    ensures { decision_value result ≡ array_decision parts.now.program
        parts.now.limits parts.now.state thread.now frame.now what }
{
    match what {
        ArrayInsn::New(t) => new_array_decision(parts, thread, frame, t),
        ArrayInsn::Length => array_length_decision(parts, thread, frame),
        ArrayInsn::Load(kind) => load_decision(parts, thread, frame, kind),
        ArrayInsn::Store(kind) => store_decision(parts, thread, frame, kind),
    }
}
