//! Arrays of arrays (JVMS 6.5 `multianewarray`).

ghost use Rattle.std.specs.Prelude.{◌≡◌, ℕ, ◌+◌, ◌*◌, ◌<◌, ◌≤◌, ◌^◌, IsTrue, length, map};
ghost use Rattle.std.specs.List.{list_all, list_any};
ghost use Rattle.jvms_machine.specs.Heap.{arrays_made, elements_made, has_dimensions, has_room_for_elements};
ghost use Rattle.jvms_machine.specs.Arrays.{is_int, is_negative, length_of_value, new_arrays_room, new_arrays_decision};
ghost use Rattle.exec_ref.specs.Counting.{capped_count, lengths_decision};
ghost use Rattle.machine_parts.specs.Decided.{decision_value};

use super::components::{after_bracket, component_type};
use crate::arrays::{creation_decision, has_room_for_elements};
use frames::Frame;
use jvms_machine::action::NewObject;
use jvms_machine::machine::BadCause;
use jvms_machine::value::Value;
use jvms_program::thrown::Thrown;
use machine_parts::machine_thread::Thread;
use machine_parts::{ActionText, Decided, Parts, bad, has_depth, never_seen};
use shared_data::shared::Text;

/// The cap of the counts, which is more than any limit allows.
const MOST: usize = 1 << 32;

fn is_int(value: Value) -> bool
    ensures { result ≡ is_int value }
{
    matches!(value, Value::Int(_))
}

fn is_negative(value: Value) -> bool
    ensures { result ≡ is_negative value }
{
    match value {
        Value::Int(n) => n < 0,
        Value::Long(_)
        | Value::Second
        | Value::Null
        | Value::Reference(_)
        | Value::ReturnAddress(_)
        | Value::Unset => false,
    }
}

pub(crate) fn length_of_value(value: Value) -> usize
    ensures exact { result ≡ length_of_value value }
    ensures few { result ≤ 0x80000000 }
{
    match value {
        Value::Int(n) => n.unsigned_abs() as usize,
        Value::Long(_)
        | Value::Second
        | Value::Null
        | Value::Reference(_)
        | Value::ReturnAddress(_)
        | Value::Unset => 0,
    }
}

/// Decides whether a class has this number of array dimensions.
fn has_dimensions(class: &[u16], dimensions: u8) -> bool
    ensures { result ≡ has_dimensions class.now dimensions }
{
    match dimensions {
        0 => false,
        1 => true,
        _ => {
            component_type(class).dimensions != 0
                && has_dimensions(after_bracket(class), dimensions - 1)
        }
    }
}

/// Returns `base + times * part`, capped at `MOST`.
fn grown(base: usize, times: usize, part: usize) -> usize
    requires base { base ≤ 0x80000000 }
    requires times { times ≤ 0x80000000 }
    requires part { part ≤ 0x100000000 }
    ensures { result ≡ capped_count (base + times * part) }
{
    let whole = base + times * part;
    if whole > MOST { MOST } else { whole }
}

/// Returns the number of arrays that these lengths make, and the number of their elements. The outermost length is
/// first, and both counts are capped.
#[tactic(auto, using(crate::proofs::CountLaws::arrays_grow, crate::proofs::CountLaws::elements_grow))]
fn counted(lengths: &[Value]) -> (usize, usize)
    ensures arrays { result.0 ≡ capped_count (arrays_made (map length_of_value lengths.now)) }
    ensures elements { result.1 ≡ capped_count (elements_made (map length_of_value lengths.now)) }
{
    match lengths {
        [] => (0, 0),
        [first, parts @ ..] => {
            let times = length_of_value(*first);
            let (arrays, elements) = counted(parts);
            (grown(1, times, arrays), grown(times, times, elements))
        }
    }
}

fn are_ints(lengths: &[Value]) -> bool
    ensures { result ≡ list_all is_int lengths.now }
{
    lengths.iter().all(|length| is_int(*length))
}

fn any_is_negative(lengths: &[Value]) -> bool
    ensures { result ≡ list_any is_negative lengths.now }
{
    lengths.iter().any(|length| is_negative(*length))
}

/// Decides whether the limits allow the counted objects and elements. The capped counts give the same decision as the
/// exact ones.
#[tactic(auto, using(crate::proofs::CountLaws::room_counted))]
fn has_room_for_counted(parts: &Parts, objects: usize, elements: usize) -> bool
    ensures exact { (whole more : ℕ) → objects ≡ capped_count whole → elements ≡ capped_count more
        → result ≡ has_room_for_elements whole more parts.now.limits parts.now.state }
    ensures number { IsTrue result → length parts.now.state.heap + objects < 2 ^ 32 }
{
    let _objects = parts.limits.objects;
    let _elements = parts.limits.elements;
    has_room_for_elements(parts, objects, elements)
}

/// Decides the creation of arrays of these lengths, if there is room for all of them and their elements.
#[tactic(auto, using(crate::proofs::CountLaws::room_of_count, crate::proofs::CountLaws::one_at_least, crate::proofs::CountLaws::one_dimension))]
fn new_arrays_room<'p>(
    parts: &Parts<'p>,
    thread: &Thread,
    class: &'p Text,
    dimensions: u8,
    lengths: &[Value],
) -> Decided<'p>
    requires { length lengths.now ≡ dimensions }
    ensures { decision_value result ≡ new_arrays_room parts.now.limits parts.now.state
        thread.now class.now dimensions (map length_of_value lengths.now) }
{
    if !has_dimensions(class.as_slice(), dimensions) {
        return never_seen();
    }
    let (arrays, elements) = counted(lengths);
    if !has_room_for_counted(parts, arrays, elements) {
        return parts.throws(thread, Thrown::OutOfMemoryError);
    }
    let class = ActionText::Of(class);
    creation_decision(parts, dimensions, NewObject::Arrays { class, dimensions })
}

/// Decides the creation of arrays whose lengths are operands. It tests the kinds, then the array's class, then that no
/// length is negative, then the room for all objects and elements.
fn lengths_decision<'p>(
    parts: &Parts<'p>,
    thread: &Thread,
    class: &'p Text,
    dimensions: u8,
    lengths: &[Value],
) -> Decided<'p>
    requires { length lengths.now ≡ dimensions }
    ensures { decision_value result ≡ lengths_decision parts.now.program parts.now.limits
        parts.now.state thread.now class.now dimensions lengths.now }
{
    if !are_ints(lengths) {
        return bad(BadCause::Kind);
    }
    if !parts.program().has_class(class.as_slice()) {
        return parts.throws(thread, Thrown::NoClassDefFoundError);
    }
    if any_is_negative(lengths) {
        return parts.throws(thread, Thrown::NegativeArraySizeException);
    }
    new_arrays_room(parts, thread, class, dimensions, lengths)
}

/// Decides JVMS 6.5 `multianewarray`. It tests the depth, then the lengths.
#[tactic(auto, unfolding(jvms_machine::specs::Arrays::new_arrays_decision))]
pub fn new_arrays_decision<'p>(
    parts: &Parts<'p>,
    thread: &Thread,
    frame: &Frame,
    class: &'p Text,
    dimensions: u8,
) -> Decided<'p>
    ensures { decision_value result ≡ new_arrays_decision parts.now.program parts.now.limits
        parts.now.state thread.now frame.now class.now dimensions }
{
    if !has_depth(frame, dimensions, 1) {
        return bad(BadCause::Depth);
    }
    let lengths = frame.arguments(usize::from(dimensions));
    lengths_decision(parts, thread, class, dimensions, lengths)
}
