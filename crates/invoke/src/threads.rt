//! The threads that a program starts (Java SE API, `Thread.start` and `Thread.join`).

ghost use Rattle.std.specs.Prelude.{◌≡◌, ◌+◌, ◌<◌, ◌^◌};
ghost use Rattle.jvms_machine.specs.Threads.{thread_of, start_decision, join_decision, thread_native_decision};
ghost use Rattle.std.specs.Prelude.{Some};
ghost use Rattle.machine_parts.specs.Decided.{decision_value};
ghost use Rattle.machine_parts.specs.Ready.{AreNumbered};

use descriptor::is_named;
use frames::Frame;
use jvms_machine::action::{Decision, Effect};
use jvms_machine::machine::{BlockedOn, Outcome};
use jvms_machine::value::Value;
use jvms_program::program::Method;
use jvms_program::thrown::Thrown;
use machine_parts::machine_thread::Thread;
use machine_parts::{Decided, Parts, never_seen, next_action, reaches};

/// Decides the start of a Thread object. It tests that the object wasn't started before, then the room for one more
/// thread.
fn start_decision<'p>(
    parts: &Parts<'p>,
    thread: &Thread,
    frame: &Frame,
    reference: u32,
) -> Decided<'p>
    requires { frame.now.activation.place + 1 < 2 ^ 64 }
    ensures { decision_value result ≡ start_decision parts.now.limits parts.now.state thread.now
        frame.now.activation reference (thread_of parts.now.state.threads reference) }
{
    if parts.thread_of(reference).is_some() {
        return parts.throws(thread, Thrown::IllegalThreadStateException);
    }
    let count = parts.threads.len();
    if count >= parts.limits.threads as usize {
        return parts.throws(thread, Thrown::OutOfMemoryError);
    }
    let effect = Effect::Starts {
        reference,
        thread: count as u32,
    };
    reaches(effect, next_action(1, frame))
}

/// Decides a join. The turn is blocked until the joined thread has ended. A thread that wasn't started isn't waited
/// for.
fn join_decision<'p>(parts: &Parts<'p>, frame: &Frame, joined: Option<usize>) -> Decided<'p>
    requires place { frame.now.activation.place + 1 < 2 ^ 64 }
    requires numbered { AreNumbered parts.now.state }
    ensures { decision_value result ≡ join_decision parts.now.state frame.now.activation joined }
{
    let Some(u) = joined else {
        return reaches(Effect::Nothing, next_action(1, frame));
    };
    let Some(other) = parts.threads.as_slice().get(u) else {
        return never_seen();
    };
    let thread = u as u32;
    if other.has_ended() {
        reaches(Effect::Joins { thread }, next_action(1, frame))
    } else {
        let on = BlockedOn::Join { thread };
        Decision::Stays(Outcome::Blocked { on })
    }
}

/// Decides a call of `start` or `join` for the Thread object on top.
pub(crate) fn thread_native_decision<'p>(
    parts: &Parts<'p>,
    thread: &Thread,
    frame: &Frame,
    method: &Method,
) -> Decided<'p>
    requires place { frame.now.activation.place + 1 < 2 ^ 64 }
    requires numbered { AreNumbered parts.now.state }
    ensures { decision_value result ≡ thread_native_decision parts.now.limits parts.now.state
        thread.now frame.now.activation method.now frame.now.activation.operands }
{
    if frame.height() == 0 {
        return never_seen();
    }
    let Value::Reference(reference) = frame.top() else {
        return never_seen();
    };
    if is_named(method.name.as_slice(), "start") {
        start_decision(parts, thread, frame, reference)
    } else {
        join_decision(parts, frame, parts.thread_of(reference))
    }
}
