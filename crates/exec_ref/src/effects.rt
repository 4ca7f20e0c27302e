//! Effects of instructions on a machine, beside those on their frame (JVMS 6.5).

ghost use Rattle.std.specs.Prelude.{◌≡◌, [], IsOk, OnOk, OnErr, option_copied, slice_get};
ghost use Rattle.jvms_machine.specs.declared.action.Action.TheVariants as action;
ghost use Rattle.jvms_machine.specs.declared.action.Effect.TheVariants as effects;
ghost use Rattle.jvms_machine.specs.Actions.{after_effect, put_field, put_static, operands_of, items_of, effect_items};
ghost use Rattle.jvms_machine.specs.Output.{line_bytes};
ghost use Rattle.jvms_program.specs.Program.{field_key_at};
ghost use Rattle.jvms_machine.specs.Turn.{CanBeMade, IsReady};
ghost use Rattle.printing.specs.Strings.{IsTheString};
ghost use Rattle.machine_parts.specs.Decided.{effect_value};
ghost use Rattle.exec_ref.specs.Affecting.{AffectsNone, PutsAtMost};
ghost use Rattle.machine_parts.specs.Machine.{with_state, after};
ghost use Rattle.machine_parts.specs.Ready.{HasCaller};
ghost use Rattle.trace.specs.Recording.{with_items};

use crate::events::effect_item;
use crate::new_objects::make_object;
use heap::Heap;
use jvms_machine::action::{Effect, FrameAction, Printed};
use jvms_machine::machine::ThreadId;
use jvms_machine::trace::Item;
use jvms_machine::value::Value;
use jvms_program::number::FieldNumber;
use machine_parts::machine_thread::Thread;
use machine_parts::{ActionText, Parts, push_listed};
use printing::put_line;
use std::alloc::AllocError;
use trace::Recording;

/// Returns the printed string, if a string is printed.
#[tactic(auto, using(crate::proofs::EffectLaws::the_string))]
fn printed_text<'h>(heap: &'h Heap<'_>, what: Printed) -> Option<&'h [u16]>
    ensures { IsTheString heap.now.objects what (option_copied result) }
{
    match what {
        Printed::Text { reference } => {
            let units = heap.units_of(reference)?;
            Some(units.as_slice())
        }
        Printed::Nothing | Printed::Int(_) | Printed::Long(_) | Printed::Null => None,
    }
}

/// Stores a value in a field of an object.
#[inline(always)]
fn put_field(parts: &mut Parts, reference: u32, field: FieldNumber, value: Value)
    ensures { parts.new ≡ with_state parts.old
        (put_field parts.old.state reference value (field_key_at parts.old.program field)) }
{
    parts.heap.put_field_numbered(reference, field, value);
}

/// Stores a value in a static field.
fn put_static(parts: &mut Parts, field: FieldNumber, value: Value)
    ensures { parts.new ≡ with_state parts.old
        (put_static parts.old.state value (field_key_at parts.old.program field)) }
{
    parts.statics.put_numbered(field, value);
}

/// Stores the value of an effect in its field or element. Other effects change nothing.
#[inline(always)]
fn put<'p>(parts: &mut Parts<'p>, t: ThreadId, effect: Effect<ActionText<'p>>)
    requires makeable { CanBeMade parts.old.state
        (operands_of (slice_get parts.old.state.threads t)) (effect_value effect) }
    requires puts { PutsAtMost (effect_value effect) }
    ensures { parts.new ≡ with_state parts.old (after_effect parts.old.program parts.old.state t
        (operands_of (slice_get parts.old.state.threads t)) (effect_value effect.entry)) }
{
    match effect {
        Effect::PutField {
            reference,
            field,
            value,
        } => put_field(parts, reference, field, value),
        Effect::PutStatic { field, value } => put_static(parts, field, value),
        Effect::StoreElement {
            reference,
            index,
            value,
        } => parts.heap.put_element(reference, index as usize, value),
        _ => {}
    }
}

/// Prints a value, and ends the line if `ends_line` is set. If there is no memory, nothing changes.
fn print(parts: &mut Parts, what: Printed, ends_line: bool) -> Result<(), AllocError>
    ensures ok { OnOk result (parts.new ≡ with_state parts.old
        (after_effect parts.old.program parts.old.state 0 [] (effects.Prints what ends_line))) }
    ensures err { OnErr result (parts.new ≡ parts.old) }
    ensures none { line_bytes parts.old.state.heap what ends_line ≡ [] → IsOk result }
{
    let text = printed_text(&parts.heap, what);
    put_line(&mut parts.output, what, text, ends_line)
}

/// Starts a thread of a Thread object, and records its item. If there is no memory, nothing changes.
fn start_thread(
    parts: &mut Parts,
    t: ThreadId,
    reference: u32,
    started: ThreadId,
    trace: &mut Recording,
) -> Result<(), AllocError>
    ensures state { OnOk result (parts.new ≡ with_state parts.old
        (after_effect parts.old.program parts.old.state t [] (effects.Starts reference started))) }
    ensures items { OnOk result (trace.new ≡ with_items trace.old
        (effect_items parts.old.program t (effects.Starts reference started))) }
    ensures kept { OnErr result (parts.new ≡ parts.old) }
    ensures no_items { OnErr result (trace.new ≡ trace.old) }
{
    parts
        .threads
        .push(Thread::new(parts.alloc, Some(reference)))?;
    let fork = Item::Fork { thread: t, started };
    if let Err(error) = trace.push(fork) {
        parts.threads.pop();
        return Err(error);
    }
    Ok(())
}

/// Appends the item of an effect, if items are recorded.
#[inline(always)]
fn record<'p>(
    parts: &Parts<'p>,
    t: ThreadId,
    effect: Effect<ActionText<'p>>,
    trace: &mut Recording,
) -> Result<(), AllocError>
    ensures ok { OnOk result (trace.new
        ≡ with_items trace.old (effect_items parts.now.program t (effect_value effect.entry))) }
    ensures err { OnErr result (trace.new ≡ trace.old) }
    ensures none { effect_items parts.now.program t (effect_value effect.entry) ≡ [] → IsOk result }
{
    if !trace.keeps() {
        return Ok(());
    }
    let item = effect_item(parts, t, effect)?;
    push_listed(trace, item)
}

/// Applies an effect to the machine, and records its item. If there is no memory, nothing changes.
#[inline(always)]
#[tactic(auto, using(trace::proofs::Recorded::recorded_none))]
fn affect<'p>(
    parts: &mut Parts<'p>,
    t: ThreadId,
    effect: Effect<ActionText<'p>>,
    trace: &mut Recording,
) -> Result<(), AllocError>
    requires { CanBeMade parts.old.state
        (operands_of (slice_get parts.old.state.threads t)) (effect_value effect) }
    ensures state { OnOk result
        (parts.new ≡ with_state parts.old (after_effect parts.old.program parts.old.state t
        (operands_of (slice_get parts.old.state.threads t)) (effect_value effect.entry))) }
    ensures items { OnOk result (trace.new
        ≡ with_items trace.old (effect_items parts.old.program t (effect_value effect.entry))) }
    ensures kept { OnErr result (parts.new ≡ parts.old) }
    ensures no_items { OnErr result (trace.new ≡ trace.old) }
    ensures none { AffectsNone parts.old.state (effect_value effect.entry)
        → effect_items parts.old.program t (effect_value effect.entry) ≡ [] → IsOk result }
{
    match effect {
        Effect::Creates(what) => make_object(parts, t, what),
        Effect::Prints { what, ends_line } => print(parts, what, ends_line),
        Effect::Locks(monitor) => parts.enter_monitor(t, monitor, trace),
        Effect::Unlocks(monitor) => parts.exit_monitor(t, monitor, trace),
        Effect::Starts { reference, thread } => start_thread(parts, t, reference, thread, trace),
        Effect::Notifies { reference, all } => {
            parts.notify(reference, all);
            Ok(())
        }
        _ => {
            record(parts, t, effect, trace)?;
            put(parts, t, effect);
            Ok(())
        }
    }
}

/// Applies an effect and the action on the top call's frame, for an instruction that reaches beyond its frame. If there
/// is no memory, nothing changes.
#[inline(always)]
#[tactic(auto, unfolding(jvms_machine::specs::Actions::applied_to, jvms_machine::specs::Actions::items_of), using(jvms_machine::proofs::EffectSoundness::affected_thread))]
pub fn reach<'p>(
    parts: &mut Parts<'p>,
    t: ThreadId,
    effect: Effect<ActionText<'p>>,
    act: FrameAction,
    trace: &mut Recording,
) -> Result<(), AllocError>
    requires ready { IsReady parts.old.start parts.old.state t
        (action.Reaches (effect_value effect) act) }
    requires next { HasCaller parts.old.state t (action.Reaches (effect_value effect) act) }
    ensures state { OnOk result
        (parts.new ≡ after parts.old t (action.Reaches (effect_value effect.entry) act)) }
    ensures items { OnOk result (trace.new ≡ with_items trace.old
        (items_of parts.old.program t (action.Reaches (effect_value effect.entry) act))) }
    ensures kept { OnErr result (parts.new ≡ parts.old) }
    ensures no_items { OnErr result (trace.new ≡ trace.old) }
    ensures none { AffectsNone parts.old.state (effect_value effect.entry)
        → items_of parts.old.program t (action.Reaches (effect_value effect.entry) act) ≡ []
        → IsOk result }
{
    affect(parts, t, effect, trace)?;
    parts.threads[t as usize].apply(act);
    Ok(())
}
