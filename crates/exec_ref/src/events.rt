//! The items of effects in a trace: reads and writes, joins, forks, acquires and releases.

ghost use Rattle.std.specs.Prelude.{◌≡◌, [], None, IsOk, IfOk};
ghost use Rattle.jvms_machine.specs.declared.trace.Item.TheVariants as item;
ghost use Rattle.jvms_machine.specs.Actions.{event, effect_items, instance_variable, static_variable};
ghost use Rattle.jvms_program.specs.Program.{field_key_at};
ghost use Rattle.machine_parts.specs.Decided.{effect_value};
ghost use Rattle.machine_parts.specs.Marks.{item_list};
ghost use Rattle.exec_ref.specs.Events.{event_key};

use heap::program::Program;
use jvms_machine::action::Effect;
use jvms_machine::machine::ThreadId;
use jvms_machine::trace::{Item, Variable};
use jvms_program::key::FieldKey;
use jvms_program::number::FieldNumber;
use machine_parts::{ActionText, Parts, acquire_item, release_item};
use std::alloc::AllocError;

/// Returns the key of the field of a number.
fn field_key(program: &Program, n: FieldNumber) -> Result<Option<FieldKey>, AllocError>
    ensures key { IfOk result (λ key. key ≡ field_key_at program.now n) }
    ensures none { field_key_at program.now n ≡ None → IsOk result }
{
    let Some(class) = program.class(n.class) else {
        return Ok(None);
    };
    let Some(field) = class.fields.as_slice().get(n.field) else {
        return Ok(None);
    };
    Ok(Some(FieldKey {
        class: class.name.share()?,
        name: field.name.share()?,
        descriptor: field.descriptor.share()?,
    }))
}

/// Returns the item of a read of a variable.
#[inline(always)]
fn read_of(thread: ThreadId, variable: Option<Variable>) -> Option<Item>
    ensures { item_list result ≡ event (λ v. item.Read thread v) variable }
{
    let variable = variable?;
    Some(Item::Read { thread, variable })
}

/// Returns the item of a write of a variable.
#[inline(always)]
fn write_of(thread: ThreadId, variable: Option<Variable>) -> Option<Item>
    ensures { item_list result ≡ event (λ v. item.Write thread v) variable }
{
    let variable = variable?;
    Some(Item::Write { thread, variable })
}

/// Returns the key of a field for its items. A field of a built-in class has none.
#[inline(always)]
fn event_key(parts: &Parts, n: FieldNumber) -> Result<Option<FieldKey>, AllocError>
    ensures key { IfOk result (λ key. key ≡ event_key parts.now.program n) }
    ensures none { event_key parts.now.program n ≡ None → IsOk result }
{
    if parts.program().is_built_in(n.class) {
        return Ok(None);
    }
    field_key(parts.program(), n)
}

/// Returns an object's field as a variable, if its reads and writes have items.
#[inline(always)]
fn instance_variable(
    parts: &Parts,
    reference: u32,
    n: FieldNumber,
) -> Result<Option<Variable>, AllocError>
    ensures variable { IfOk result (λ v. v ≡ instance_variable parts.now.program reference n) }
    ensures none { instance_variable parts.now.program reference n ≡ None → IsOk result }
{
    let Some(field) = event_key(parts, n)? else {
        return Ok(None);
    };
    Ok(Some(Variable::Instance { reference, field }))
}

/// Returns a static field as a variable, if its reads and writes have items.
#[inline(always)]
fn static_variable(parts: &Parts, n: FieldNumber) -> Result<Option<Variable>, AllocError>
    ensures variable { IfOk result (λ v. v ≡ static_variable parts.now.program n) }
    ensures none { static_variable parts.now.program n ≡ None → IsOk result }
{
    let Some(field) = event_key(parts, n)? else {
        return Ok(None);
    };
    Ok(Some(Variable::Static { field }))
}

/// Returns the item of an effect, if it has one.
#[inline(always)]
pub(crate) fn effect_item<'p>(
    parts: &Parts<'p>,
    t: ThreadId,
    effect: Effect<ActionText<'p>>,
) -> Result<Option<Item>, AllocError>
    ensures item { IfOk result
        (λ item. item_list item ≡ effect_items parts.now.program t (effect_value effect.entry)) }
    ensures none { effect_items parts.now.program t (effect_value effect.entry) ≡ [] → IsOk result }
{
    match effect {
        Effect::GetField { reference, field } => {
            Ok(read_of(t, instance_variable(parts, reference, field)?))
        }
        Effect::PutField {
            reference,
            field,
            ..
        } => Ok(write_of(t, instance_variable(parts, reference, field)?)),
        Effect::GetStatic { field } => Ok(read_of(t, static_variable(parts, field)?)),
        Effect::PutStatic { field, .. } => Ok(write_of(t, static_variable(parts, field)?)),
        Effect::LoadElement { reference, index } => {
            Ok(read_of(t, Some(Variable::Element { reference, index })))
        }
        Effect::StoreElement {
            reference,
            index,
            ..
        } => Ok(write_of(t, Some(Variable::Element { reference, index }))),
        Effect::Joins { thread } => Ok(Some(Item::Join {
            thread: t,
            ended: thread,
        })),
        Effect::Locks(monitor) => Ok(acquire_item(t, monitor)),
        Effect::Unlocks(monitor) => Ok(release_item(t, monitor)),
        Effect::Starts { thread, .. } => Ok(Some(Item::Fork {
            thread: t,
            started: thread,
        })),
        Effect::Nothing | Effect::Creates(_) | Effect::Prints { .. } | Effect::Notifies { .. } =>
            Ok(None),
    }
}
