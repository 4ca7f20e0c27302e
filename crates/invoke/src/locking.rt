//! The monitor instructions (JVMS 6.5 `monitorenter`, `monitorexit`).

ghost use Rattle.std.specs.Prelude.{◌≡◌, ◌+◌, ◌<◌, ◌^◌};
ghost use Rattle.jvms_machine.specs.declared.value.Value.TheVariants as value;
ghost use Rattle.jvms_machine.specs.Arrays.{with_object_of};
ghost use Rattle.jvms_machine.specs.Locking.{enter_object, exit_object, monitor_enter_decision, monitor_exit_decision};
ghost use Rattle.machine_parts.specs.Decided.{decision_value};

pub(crate) mod fast;

use frames::Frame;
use jvms_machine::action::Effect;
use jvms_machine::machine::{BadCause, ThreadId};
use jvms_machine::value::Value;
use jvms_program::thrown::Thrown;
use machine_parts::machine_thread::Thread;
use machine_parts::{Decided, Entering, Parts, bad, has_depth, never_seen, next_action, reaches};

/// Decides the entry of an object's monitor.
fn enter_object<'p>(
    parts: &Parts<'p>,
    t: ThreadId,
    thread: &Thread,
    frame: &Frame,
    reference: u32,
) -> Decided<'p>
    requires { frame.now.activation.place + 1 < 2 ^ 64 }
    ensures { decision_value result
        ≡ with_object_of parts.now.limits parts.now.state thread.now (value.Reference reference)
        (enter_object parts.now.limits parts.now.state t thread.now frame.now) }
{
    if parts.heap.class_of(reference).is_none() {
        return never_seen();
    }
    match parts.monitor_entry(t, thread, reference) {
        Entering::Enters(monitor) => reaches(Effect::Locks(monitor), next_action(1, frame)),
        Entering::Stops(decision) => decision,
    }
}

/// Decides the exit from an object's monitor.
fn exit_object<'p>(
    parts: &Parts<'p>,
    t: ThreadId,
    thread: &Thread,
    frame: &Frame,
    reference: u32,
) -> Decided<'p>
    requires { frame.now.activation.place + 1 < 2 ^ 64 }
    ensures { decision_value result
        ≡ with_object_of parts.now.limits parts.now.state thread.now (value.Reference reference)
        (exit_object parts.now.limits parts.now.state t thread.now frame.now) }
{
    if parts.heap.class_of(reference).is_none() {
        return never_seen();
    }
    match parts.monitor_exit(t, reference) {
        Some(monitor) => reaches(Effect::Unlocks(monitor), next_action(1, frame)),
        None => parts.throws(thread, Thrown::IllegalMonitorStateException),
    }
}

/// Decides JVMS 6.5 `monitorenter`. It tests the depth, the kind and null, then the monitor.
#[tactic(auto, unfolding(jvms_machine::specs::Locking::monitor_enter_decision))]
pub fn monitor_enter_decision<'p>(
    parts: &Parts<'p>,
    t: ThreadId,
    thread: &Thread,
    frame: &Frame,
) -> Decided<'p>
    requires { frame.now.activation.place + 1 < 2 ^ 64 }
    ensures { decision_value result
        ≡ monitor_enter_decision parts.now.limits parts.now.state t thread.now frame.now }
{
    if !has_depth(frame, 1, 0) {
        return bad(BadCause::Depth);
    }
    match frame.top() {
        Value::Reference(reference) => enter_object(parts, t, thread, frame, reference),
        Value::Null => parts.throws(thread, Thrown::NullPointerException),
        Value::Int(_) | Value::Long(_) | Value::Second | Value::ReturnAddress(_) | Value::Unset =>
            bad(BadCause::Kind),
    }
}

/// Decides JVMS 6.5 `monitorexit`. It tests the depth, the kind and null, then the owner.
#[tactic(auto, unfolding(jvms_machine::specs::Locking::monitor_exit_decision))]
pub fn monitor_exit_decision<'p>(
    parts: &Parts<'p>,
    t: ThreadId,
    thread: &Thread,
    frame: &Frame,
) -> Decided<'p>
    requires { frame.now.activation.place + 1 < 2 ^ 64 }
    ensures { decision_value result
        ≡ monitor_exit_decision parts.now.limits parts.now.state t thread.now frame.now }
{
    if !has_depth(frame, 1, 0) {
        return bad(BadCause::Depth);
    }
    match frame.top() {
        Value::Reference(reference) => exit_object(parts, t, thread, frame, reference),
        Value::Null => parts.throws(thread, Thrown::NullPointerException),
        Value::Int(_) | Value::Long(_) | Value::Second | Value::ReturnAddress(_) | Value::Unset =>
            bad(BadCause::Kind),
    }
}
