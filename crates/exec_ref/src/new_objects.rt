//! New objects (JVMS 6.5 `new`, `newarray`, `anewarray`, `multianewarray`, `ldc`).

ghost use Rattle.std.specs.Prelude.{◌≡◌, ◌≤◌, IfOk, OnOk, OnErr, length, map, slice_get};
ghost use Rattle.jvms_machine.specs.declared.action.NewObject.TheVariants as new_object;
ghost use Rattle.jvms_machine.specs.declared.action.Effect.TheVariants as effects;
ghost use Rattle.jvms_machine.specs.Actions.{operands_of, with_new};
ghost use Rattle.jvms_machine.specs.Arrays.{counted_lengths, length_of_value};
ghost use Rattle.jvms_machine.specs.Heap.{array_of_class};
ghost use Rattle.jvms_machine.specs.Turn.{CanBeMade};
ghost use Rattle.machine_parts.specs.Decided.{object_value, text_of};
ghost use Rattle.machine_parts.specs.Machine.{with_state};

use crate::arrays::many::length_of_value;
use descriptor::is_array_name;
use heap::Heap;
use jvms_machine::action::NewObject;
use jvms_machine::machine::ThreadId;
use jvms_machine::value::Value;
use machine_parts::{ActionText, Parts};
use shared_data::items::Items;
use shared_data::shared::{Shared, Text};
use std::alloc::{AllocError, Global};

/// `[`
const BRACKET: u16 = 91;

/// `L`
const CLASS_LETTER: u16 = 76;

/// `;`
const SEMICOLON: u16 = 59;

/// Returns the name of the class of arrays whose components are of the named class.
fn array_of_class(alloc: Global, name: &[u16]) -> Result<Text, AllocError>
    ensures { IfOk result (λ class. class ≡ array_of_class name.now) }
{
    let mut units = Vec::new(alloc);
    units.push(BRACKET)?;
    if is_array_name(name) {
        units.extend_from_slice(name)?;
    } else {
        units.push(CLASS_LETTER)?;
        units.extend_from_slice(name)?;
        units.push(SEMICOLON)?;
    }
    Shared::new(alloc, Items::from_vec(units))
}

/// Returns the text that an action names.
fn text(alloc: Global, heap: &Heap<'_>, text: ActionText<'_>) -> Result<Text, AllocError>
    ensures { IfOk result (λ units. units ≡ text_of text.entry) }
{
    match text {
        ActionText::Of(text) => text.share(),
        ActionText::ArrayOfType(t) => heap.primitive_array_class(t).share(),
        ActionText::ArrayOfClass(name) => array_of_class(alloc, name.as_slice()),
    }
}

/// Returns the lengths of nested arrays, which are operands.
fn lengths_of(alloc: Global, values: &[Value]) -> Result<Vec<u32>, AllocError>
    ensures { IfOk result (λ lengths. lengths.items ≡ map length_of_value values.now) }
{
    let mut lengths = Vec::with_capacity(alloc, values.len())?;
    for value in values {
        lengths.push(length_of_value(*value) as u32)?;
    }
    Ok(lengths)
}

/// Returns the lengths in the topmost `dimensions` operands of the top call.
fn lengths_taken(parts: &Parts, t: ThreadId, dimensions: u8) -> Result<Vec<u32>, AllocError>
    requires { dimensions ≤ length (operands_of (slice_get parts.now.state.threads t)) }
    ensures { IfOk result (λ lengths. lengths.items
        ≡ counted_lengths dimensions (operands_of (slice_get parts.now.state.threads t))) }
{
    match parts.threads.as_slice().get(t as usize) {
        None => Ok(Vec::new(parts.alloc)),
        Some(thread) => lengths_of(parts.alloc, thread.arguments(usize::from(dimensions))),
    }
}

/// Creates an array and the arrays in it, whose lengths are operands. If there is no memory, nothing changes.
#[tactic(auto, using(crate::proofs::EffectLaws::are_dimensions))]
fn make_arrays<'p>(
    parts: &mut Parts<'p>,
    t: ThreadId,
    class: ActionText<'p>,
    dimensions: u8,
) -> Result<(), AllocError>
    requires { CanBeMade parts.old.state (operands_of (slice_get parts.old.state.threads t))
        (effects.Creates (object_value (new_object.Arrays class dimensions))) }
    ensures ok { OnOk result (parts.new ≡ with_state parts.old (with_new parts.old.program
        parts.old.state (operands_of (slice_get parts.old.state.threads t))
        (object_value (new_object.Arrays class.entry dimensions)))) }
    ensures err { OnErr result (parts.new ≡ parts.old) }
{
    let class = text(parts.alloc, &parts.heap, class)?;
    let lengths = lengths_taken(parts, t, dimensions)?;
    parts.heap.new_arrays(&class, lengths.as_slice())
}

/// Creates an object, with its fields or elements. If there is no memory, nothing changes.
pub(crate) fn make_object<'p>(
    parts: &mut Parts<'p>,
    t: ThreadId,
    what: NewObject<ActionText<'p>>,
) -> Result<(), AllocError>
    requires { CanBeMade parts.old.state (operands_of (slice_get parts.old.state.threads t))
        (effects.Creates (object_value what)) }
    ensures ok { OnOk result
        (parts.new ≡ with_state parts.old (with_new parts.old.program parts.old.state
        (operands_of (slice_get parts.old.state.threads t)) (object_value what.entry))) }
    ensures err { OnErr result (parts.new ≡ parts.old) }
{
    match what {
        NewObject::Instance { class } => parts.heap.new_instance(class),
        NewObject::Array { class, length } => {
            let class = text(parts.alloc, &parts.heap, class)?;
            parts.heap.new_array(&class, length)
        }
        NewObject::Arrays { class, dimensions } => make_arrays(parts, t, class, dimensions),
        NewObject::Text { units } => {
            let units = text(parts.alloc, &parts.heap, units)?;
            parts.heap.new_text(&units)
        }
        NewObject::ClassObject { name } => {
            let name = text(parts.alloc, &parts.heap, name)?;
            parts.heap.new_class_object(&name)
        }
    }
}
