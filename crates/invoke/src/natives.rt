//! The native methods of built-in classes: prints to `System.out`, starts and joins of threads, waits and
//! notifications. Each completes in the turn of its call.

ghost use Rattle.std.specs.Prelude.{◌≡◌, ◌+◌, ◌<◌, ◌^◌, slice_get};
ghost use Rattle.jvms_machine.specs.Natives.{prints, object_printed, value_printed, print_decision, native_of_class};
ghost use Rattle.jvms_machine.specs.Places.{whole_top};
ghost use Rattle.jvms_machine.specs.State.{object_at};
ghost use Rattle.machine_parts.specs.Decided.{decision_value};
ghost use Rattle.machine_parts.specs.Ready.{AreNumbered};

use crate::threads::thread_native_decision;
use crate::waiting::object_native_decision;
use descriptor::is_named;
use frames::Frame;
use jvms_machine::action::{Effect, Printed};
use jvms_machine::machine::{BadCause, ThreadId};
use jvms_machine::value::Value;
use jvms_program::number::ClassNumber;
use jvms_program::program::Method;
use jvms_program::thrown::Thrown;
use machine_parts::machine_thread::Thread;
use machine_parts::{Decided, Parts, bad, never_seen, next_action, reaches};

/// Returns the decision to print. It takes all operands of the call: the receiver, and the printed value, if there is
/// one.
fn prints<'p>(frame: &Frame, takes: u16, what: Printed, ends_line: bool) -> Decided<'p>
    requires { frame.now.activation.place + 1 < 2 ^ 64 }
    ensures { decision_value result ≡ prints frame.now.activation takes what ends_line }
{
    reaches(
        Effect::Prints { what, ends_line },
        next_action(takes, frame),
    )
}

/// Decides the print of an object. Stops with `Kind` if it is no string.
#[tactic(auto, using(crate::proofs::Printed::text_printed, crate::proofs::Printed::no_text_printed))]
fn object_printed<'p>(
    parts: &Parts<'p>,
    frame: &Frame,
    takes: u16,
    ends_line: bool,
    reference: u32,
) -> Decided<'p>
    requires { frame.now.activation.place + 1 < 2 ^ 64 }
    ensures { decision_value result ≡ object_printed frame.now.activation takes ends_line reference
        (object_at parts.now.state.heap reference) }
{
    match parts.heap.units_of(reference) {
        Some(_) => prints(frame, takes, Printed::Text { reference }, ends_line),
        None => bad(BadCause::Kind),
    }
}

/// Returns the topmost value, where a long has two slots. Returns `None` if the operands are empty, or end in one half
/// of a long.
fn whole_top(frame: &Frame) -> Option<Value>
    ensures { result ≡ whole_top frame.now.activation.operands }
{
    match frame.height() {
        0 => None,
        1 => match frame.top() {
            Value::Second | Value::Long(_) => None,
            value => Some(value),
        },
        _ => match frame.top_two() {
            (Value::Long(n), Value::Second) => Some(Value::Long(n)),
            (_, Value::Second | Value::Long(_)) => None,
            (_, value) => Some(value),
        },
    }
}

/// Decides the print of the topmost value.
fn value_printed<'p>(parts: &Parts<'p>, frame: &Frame, takes: u16, ends_line: bool) -> Decided<'p>
    requires { frame.now.activation.place + 1 < 2 ^ 64 }
    ensures { decision_value result
        ≡ value_printed parts.now.state frame.now.activation takes ends_line
        (whole_top frame.now.activation.operands) }
{
    match whole_top(frame) {
        Some(Value::Int(n)) => prints(frame, takes, Printed::Int(n), ends_line),
        Some(Value::Long(n)) => prints(frame, takes, Printed::Long(n), ends_line),
        Some(Value::Null) => prints(frame, takes, Printed::Null, ends_line),
        Some(Value::Reference(reference)) => {
            object_printed(parts, frame, takes, ends_line, reference)
        }
        _ => never_seen(),
    }
}

/// Decides a call of `print` or `println`.
fn print_decision<'p>(parts: &Parts<'p>, frame: &Frame, takes: u16, method: &Method) -> Decided<'p>
    requires { frame.now.activation.place + 1 < 2 ^ 64 }
    ensures { decision_value result
        ≡ print_decision parts.now.state frame.now.activation takes method.now }
{
    let ends_line = is_named(method.name.as_slice(), "println");
    if ends_line && is_named(method.descriptor.as_slice(), "()V") {
        prints(frame, takes, Printed::Nothing, true)
    } else {
        value_printed(parts, frame, takes, ends_line)
    }
}

/// Decides the call of a native method of a class by the top frame: `PrintStream`'s, `Thread`'s or `Object`'s. Throws
/// `UnsatisfiedLinkError` for any other class.
pub(crate) fn native_decision<'p>(
    parts: &Parts<'p>,
    t: ThreadId,
    thread: &Thread,
    frame: &Frame,
    takes: u16,
    method: &Method,
    class: ClassNumber,
) -> Decided<'p>
    requires place { frame.now.activation.place + 1 < 2 ^ 64 }
    requires numbered { AreNumbered parts.now.state }
    ensures { decision_value result ≡ native_of_class parts.now.limits parts.now.state t thread.now
        frame.now.activation takes method.now (slice_get parts.now.program class) }
{
    let Some(c) = parts.program().class(class) else {
        return never_seen();
    };
    if is_named(c.name.as_slice(), "java/io/PrintStream") {
        return print_decision(parts, frame, takes, method);
    }
    if is_named(c.name.as_slice(), "java/lang/Thread") {
        return thread_native_decision(parts, thread, frame, method);
    }
    if is_named(c.name.as_slice(), "java/lang/Object") {
        return object_native_decision(parts, t, thread, frame, method);
    }
    parts.throws(thread, Thrown::UnsatisfiedLinkError)
}
