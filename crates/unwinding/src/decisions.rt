//! Decisions on a pending exception (JVMS 2.10), which a handler takes or which pops a frame, and on `athrow` (JVMS
//! 6.5).

ghost use Rattle.std.specs.Prelude.{◌≡◌, option_copied, drop};
ghost use Rattle.jvms_machine.specs.declared.value.Value.TheVariants as value;
ghost use Rattle.jvms_machine.specs.Arrays.{with_object_of};
ghost use Rattle.jvms_machine.specs.State.{Object, class_of};
ghost use Rattle.jvms_machine.specs.Unwinding.{covers, takes_class, handles, handler_of, popped_decision, handler_decision, failed_with, top_decision, unwinding_decision, throwable_decision, throw_decision};
ghost use Rattle.invoke.specs.heap.Objects.{IsNumberOf};
ghost use Rattle.invoke.specs.machine_parts.Decided.{decision_value};
ghost use Rattle.unwinding.specs.Replacing.{is_replaced};

use frames::Frame;
use invoke::heap::ObjectClass;
use invoke::machine_parts::{Decided, Parts, Unlocking, bad, has_depth, never_seen};
use invoke::machine_thread::Thread;
use invoke::program::Program;
use jvms_machine::action::{Action, Decision, Exception};
use jvms_machine::machine::{BadCause, ThreadId};
use jvms_machine::state::StackFrame;
use jvms_machine::value::Value;
use jvms_program::program::{Catch, ExceptionHandler};
use jvms_program::thrown::Thrown;

/// `java/lang/Error`
const ERROR: [u16; 15] = [
    106, 97, 118, 97, 47, 108, 97, 110, 103, 47, 69, 114, 114, 111, 114,
];

/// `java/lang/Throwable`
const THROWABLE: [u16; 19] = [
    106, 97, 118, 97, 47, 108, 97, 110, 103, 47, 84, 104, 114, 111, 119, 97, 98, 108, 101,
];

/// Decides whether a handler's range covers a pc.
fn covers(place: usize, handler: &ExceptionHandler) -> bool
    ensures { result ≡ covers place handler.now }
{
    handler.start as usize <= place && place < handler.end as usize
}

/// Decides whether a handler takes objects of a class. A handler whose class doesn't exist takes none.
fn takes_class(program: &Program, class: ObjectClass<'_>, catch: &Catch) -> bool
    requires { IsNumberOf program.now class.number class.name.now }
    ensures { result ≡ takes_class program.now class.entry.name.now catch.now }
{
    match catch {
        Catch::All => true,
        Catch::Class(name) => class.fits(program, name.as_slice()),
    }
}

fn handles(
    program: &Program,
    class: ObjectClass<'_>,
    place: usize,
    handler: &ExceptionHandler,
) -> bool
    requires { IsNumberOf program.now class.number class.name.now }
    ensures { result ≡ handles program.now class.entry.name.now place handler.now }
{
    covers(place, handler) && takes_class(program, class, &handler.catch)
}

/// Returns the first handler in the table's order that covers the pc of a call and takes objects of a class.
fn handler_of<'p>(
    program: &Program,
    class: ObjectClass<'_>,
    frame: &Frame<'p>,
) -> Option<&'p ExceptionHandler>
    requires { IsNumberOf program.now class.number class.name.now }
    ensures { option_copied result ≡ handler_of program.now class.entry.name.now frame.now }
{
    let place = frame.place();
    frame
        .body()
        .handlers
        .as_slice()
        .iter()
        .find(|handler| handles(program, class, place, handler))
}

/// Decides that the call of this frame is popped, and leaves its monitor.
fn popped_decision<'p>(
    parts: &Parts<'p>,
    t: ThreadId,
    thread: &Thread,
    frame: &Frame,
) -> Decided<'p>
    ensures { decision_value result
        ≡ popped_decision parts.now.limits parts.now.state t frame.now (drop 1 thread.now.frames) }
{
    match parts.frame_unlocking(t, frame) {
        Unlocking::Fails => parts.fails_to_unlock(thread, frame),
        Unlocking::Leaves(unlock) => Decision::Applies(Action::Unwinds {
            method: frame.method(),
            last: thread.height() <= 1,
            unlock,
        }),
    }
}

/// Decides the turn of the call of this frame with a pending object of a class. A handler catches it if there is one, and
/// the turn is bad if `max_stack` has no room for the object. Without a handler the call is popped.
fn handler_decision<'p>(
    parts: &Parts<'p>,
    t: ThreadId,
    thread: &Thread,
    frame: &Frame,
    reference: u32,
    class: ObjectClass<'_>,
) -> Decided<'p>
    requires { IsNumberOf parts.now.program class.number class.name.now }
    ensures { decision_value result ≡ handler_decision parts.now.limits parts.now.state t frame.now
        (drop 1 thread.now.frames) reference
        (handler_of parts.now.program class.entry.name.now frame.now) }
{
    match handler_of(parts.program(), class, frame) {
        None => popped_decision(parts, t, thread, frame),
        Some(handler) => {
            if frame.body().max_stack == 0 {
                return bad(BadCause::Depth);
            }
            Decision::Applies(Action::Catches {
                reference,
                target: handler.target as usize,
            })
        }
    }
}

/// Decides whether a failed initialisation of a class replaces a pending object of a class. It does if its `<clinit>`
/// was called and the object is no Error.
fn is_replaced(parts: &Parts, called: bool, class: ObjectClass<'_>) -> bool
    requires { IsNumberOf parts.now.program class.number class.name.now }
    ensures { result ≡ is_replaced parts.now.program called class.entry.name.now }
{
    called && !class.fits(parts.program(), &ERROR)
}

/// Returns the exception that is pending after a class's failed initialisation.
#[tactic(auto, using(crate::proofs::FailedClasses::failed_anew, crate::proofs::FailedClasses::failed_still))]
fn failed_with(parts: &Parts, called: bool, reference: u32, class: ObjectClass<'_>) -> Exception
    requires { IsNumberOf parts.now.program class.number class.name.now }
    ensures { (o : Object) → class.entry.name.now ≡ class_of o → result
        ≡ failed_with parts.now.program parts.now.limits parts.now.state called reference o }
{
    if is_replaced(parts, called, class) {
        parts.exception_of(Thrown::ExceptionInInitializerError)
    } else {
        Exception::Existing { reference }
    }
}

/// Decides the turn of a thread with a pending object of a class.
fn unwound_by_top<'p>(
    parts: &Parts<'p>,
    t: ThreadId,
    thread: &Thread,
    reference: u32,
    class: ObjectClass<'_>,
) -> Decided<'p>
    requires { IsNumberOf parts.now.program class.number class.name.now }
    ensures { (o : Object) → class.entry.name.now ≡ class_of o → decision_value result
        ≡ top_decision parts.now.program parts.now.limits parts.now.state t thread.now.frames
        reference o }
{
    match thread.frame(0) {
        None => never_seen(),
        Some(StackFrame::Call(frame)) => {
            handler_decision(parts, t, thread, frame, reference, class)
        }
        Some(
            StackFrame::Initialisation {
                class: number,
                called,
            },
        ) => {
            Decision::Applies(Action::FailsInitialisation {
                class: *number,
                exception: failed_with(parts, *called, reference, class),
                last: thread.height() <= 1,
            })
        }
    }
}

/// Decides the turn of a thread with a pending exception.
#[tactic(auto, unfolding(jvms_machine::specs::Unwinding::unwinding_decision))]
pub fn unwinding_decision<'p>(
    parts: &Parts<'p>,
    t: ThreadId,
    thread: &Thread,
    reference: u32,
) -> Decided<'p>
    ensures { decision_value result ≡ unwinding_decision parts.now.program
        parts.now.limits parts.now.state t thread.now reference }
{
    match parts.heap.object_class(reference) {
        None => never_seen(),
        Some(class) => unwound_by_top(parts, t, thread, reference, class),
    }
}

/// Decides the throw of the object of a reference. Stops with `Kind` if it is no Throwable.
fn throwable_decision<'p>(parts: &Parts<'p>, thread: &Thread, reference: u32) -> Decided<'p>
    ensures { decision_value result ≡ with_object_of parts.now.limits parts.now.state thread.now
        (value.Reference reference) (throwable_decision parts.now.program) }
{
    match parts.heap.object_class(reference) {
        None => never_seen(),
        Some(class) => {
            if class.fits(parts.program(), &THROWABLE) {
                Decision::Applies(Action::Throws { reference })
            } else {
                bad(BadCause::Kind)
            }
        }
    }
}

/// Decides JVMS 6.5 `athrow`. It tests the depth and null, then that the object is a Throwable.
#[tactic(auto, unfolding(jvms_machine::specs::Unwinding::throw_decision))]
pub fn throw_decision<'p>(parts: &Parts<'p>, thread: &Thread, frame: &Frame) -> Decided<'p>
    ensures { decision_value result
        ≡ throw_decision parts.now.program parts.now.limits parts.now.state thread.now frame.now }
{
    if !has_depth(frame, 1, 0) {
        return bad(BadCause::Depth);
    }
    match frame.top() {
        Value::Reference(reference) => throwable_decision(parts, thread, reference),
        Value::Null => parts.throws(thread, Thrown::NullPointerException),
        Value::Int(_) | Value::Long(_) | Value::Second | Value::ReturnAddress(_) | Value::Unset =>
            bad(BadCause::Kind),
    }
}
