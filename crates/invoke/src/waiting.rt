//! Waiting threads (JLS 17.2, Java SE API, `Object.wait`, `Object.notify` and `Object.notifyAll`).

ghost use Rattle.std.specs.Prelude.{◌≡◌, ◌+◌, ◌<◌, ◌^◌, OnErr, OnOk};
ghost use Rattle.jvms_machine.specs.declared.action.Action.TheVariants as action;
ghost use Rattle.jvms_machine.specs.Actions.{items_of};
ghost use Rattle.jvms_machine.specs.Turn.{IsReady};
ghost use Rattle.jvms_machine.specs.Waiting.{object_native_decision, owner_decision, retake_decision, waits_or_notifies, waiting_decision};
ghost use Rattle.machine_parts.specs.Decided.{decision_value};
ghost use Rattle.machine_parts.specs.Machine.{after};
ghost use Rattle.machine_parts.specs.Ready.{AreNumbered, HasCaller};
ghost use Rattle.trace.specs.Recording.{with_items};

use descriptor::is_named;
use frames::Frame;
use jvms_machine::action::{Action, Decision, Effect};
use jvms_machine::machine::{BlockedOn, Outcome, ThreadId};
use jvms_machine::state::{Hold, Wait};
use jvms_machine::value::Value;
use jvms_program::program::Method;
use jvms_program::thrown::Thrown;
use machine_parts::machine_thread::Thread;
use machine_parts::{Decided, Parts, never_seen, next_action, reaches};
use std::alloc::AllocError;
use trace::Recording;

/// Decides the wait of the monitor's owner, with its entry count, or a notification.
fn waits_or_notifies<'p>(frame: &Frame, method: &Method, wait: Wait) -> Decided<'p>
    requires { frame.now.activation.place + 1 < 2 ^ 64 }
    ensures { decision_value result
        ≡ waits_or_notifies frame.now.activation method.now wait.reference wait.count }
{
    if is_named(method.name.as_slice(), "wait") {
        return Decision::Applies(Action::Waits(wait));
    }
    let effect = Effect::Notifies {
        reference: wait.reference,
        all: is_named(method.name.as_slice(), "notifyAll"),
    };
    reaches(effect, next_action(1, frame))
}

/// Decides a wait or a notification. Throws `IllegalMonitorStateException` if the thread isn't the owner of the
/// monitor.
fn owned_decision<'p>(
    parts: &Parts<'p>,
    t: ThreadId,
    thread: &Thread,
    frame: &Frame,
    method: &Method,
    reference: u32,
    hold: Option<Hold>,
) -> Decided<'p>
    requires { frame.now.activation.place + 1 < 2 ^ 64 }
    ensures { decision_value result
        ≡ owner_decision parts.now.limits parts.now.state t thread.now hold
        (waits_or_notifies frame.now.activation method.now reference) }
{
    let Some(hold) = hold else {
        return parts.throws(thread, Thrown::IllegalMonitorStateException);
    };
    if hold.owner != t {
        return parts.throws(thread, Thrown::IllegalMonitorStateException);
    }
    let wait = Wait {
        reference,
        count: hold.count,
    };
    waits_or_notifies(frame, method, wait)
}

/// Decides a call of `wait`, `notify` or `notifyAll` for the object on top.
pub(crate) fn object_native_decision<'p>(
    parts: &Parts<'p>,
    t: ThreadId,
    thread: &Thread,
    frame: &Frame,
    method: &Method,
) -> Decided<'p>
    requires { frame.now.activation.place + 1 < 2 ^ 64 }
    ensures { decision_value result ≡ object_native_decision parts.now.limits parts.now.state
        t thread.now frame.now.activation method.now frame.now.activation.operands }
{
    if frame.height() == 0 {
        return never_seen();
    }
    let Value::Reference(reference) = frame.top() else {
        return never_seen();
    };
    let hold = parts.monitor(reference);
    owned_decision(parts, t, thread, frame, method, reference, hold)
}

/// Decides that a notified thread retakes the monitor. The turn is blocked until the monitor is free.
fn retake_decision<'p>(wait: Wait, hold: Option<Hold>) -> Decided<'p>
    ensures { decision_value result ≡ retake_decision wait hold }
{
    match hold {
        None => Decision::Applies(Action::Retakes(wait)),
        Some(hold) => {
            let on = BlockedOn::Monitor {
                reference: wait.reference,
                owner: hold.owner,
            };
            Decision::Stays(Outcome::Blocked { on })
        }
    }
}

/// Decides the turn of a waiting thread. The turn is blocked until the thread is notified and the monitor is free.
#[tactic(auto, unfolding(jvms_machine::specs::Waiting::waiting_decision))]
pub fn waiting_decision<'p>(parts: &Parts<'p>, t: ThreadId, wait: Wait) -> Decided<'p>
    ensures { decision_value result ≡ waiting_decision parts.now.state t wait }
{
    if parts.is_waiter(t) {
        let on = BlockedOn::Wait {
            reference: wait.reference,
        };
        return Decision::Stays(Outcome::Blocked { on });
    }
    retake_decision(wait, parts.monitor(wait.reference))
}

/// Frees a monitor for the top call, whose thread begins to wait. If there is no memory, nothing changes.
#[tactic(auto, unfolding(jvms_machine::specs::Actions::applied_to, jvms_machine::specs::Actions::items_of))]
pub fn wait(
    parts: &mut Parts,
    t: ThreadId,
    wait: Wait,
    trace: &mut Recording,
) -> Result<(), AllocError>
    requires { IsReady parts.old.start parts.old.state t (action.Waits wait) }
    ensures state { OnOk result (parts.new ≡ after parts.old t (action.Waits wait)) }
    ensures items { OnOk result
        (trace.new ≡ with_items trace.old (items_of parts.old.program t (action.Waits wait))) }
    ensures kept { OnErr result (parts.new ≡ parts.old) }
    ensures no_items { OnErr result (trace.new ≡ trace.old) }
{
    parts.free_to_wait(t, wait.reference, trace)?;
    parts.threads[t as usize].put_to_wait(wait);
    Ok(())
}

/// Gives the monitor back to a notified thread, whose call of `wait` then completes. If there is no memory, nothing
/// changes.
#[tactic(auto, unfolding(jvms_machine::specs::Actions::applied_to, jvms_machine::specs::Actions::items_of))]
pub fn retake(
    parts: &mut Parts,
    t: ThreadId,
    wait: Wait,
    trace: &mut Recording,
) -> Result<(), AllocError>
    requires ready { IsReady parts.old.start parts.old.state t (action.Retakes wait) }
    requires next { HasCaller parts.old.state t (action.Retakes wait) }
    ensures state { OnOk result (parts.new ≡ after parts.old t (action.Retakes wait)) }
    ensures items { OnOk result
        (trace.new ≡ with_items trace.old (items_of parts.old.program t (action.Retakes wait))) }
    ensures kept { OnErr result (parts.new ≡ parts.old) }
    ensures no_items { OnErr result (trace.new ≡ trace.old) }
{
    parts.retake_monitor(t, wait, trace)?;
    parts.threads[t as usize].end_wait();
    Ok(())
}
