//! Return instructions (JVMS 2.6.4, 6.5 `ireturn`, `lreturn`, `areturn`, `return`).

ghost use Rattle.std.specs.Prelude.{◌≡◌, drop};
ghost use Rattle.jvms_program.specs.Program.{method_at};
ghost use Rattle.jvms_machine.specs.Returns.{gives_kind, gives_nothing, returns_to, returned_decision, return_top_decision, return_decision, method_return_decision};
ghost use Rattle.machine_parts.specs.Decided.{decision_value};

pub(crate) mod fast;

use frames::Frame;
use jvms_file::descriptor::ResultType;
use jvms_file::insn::{Kind, ReturnInsn};
use jvms_machine::action::{Action, Decision, MonitorUse};
use jvms_machine::machine::{BadCause, ThreadId};
use jvms_machine::value::Value;
use machine_parts::exec::{kind_size, top_value};
use machine_parts::machine_thread::Thread;
use machine_parts::{Decided, Parts, Unlocking, bad, kind_of_type, never_seen};

/// Decides whether a method has a result of this kind.
#[inline(always)]
pub(super) fn gives_kind(given: &ResultType, kind: Kind) -> bool
    ensures { result ≡ gives_kind given.now kind }
{
    match given {
        ResultType::Void => false,
        ResultType::Value(t) => kind_of_type(t) == kind,
    }
}

/// Decides whether a method has no result.
#[inline(always)]
pub(super) fn gives_nothing(given: &ResultType) -> bool
    ensures { result ≡ gives_nothing given.now }
{
    matches!(given, ResultType::Void)
}

/// Returns the decision that the top call returns. The first call ends the thread, and any other continues the frame
/// below.
fn returns_to<'p>(
    thread: &Thread,
    frame: &Frame,
    value: Option<Value>,
    unlock: Option<MonitorUse>,
) -> Decided<'p>
    ensures { decision_value result
        ≡ returns_to frame.now.method (drop 1 thread.now.frames) value unlock }
{
    let method = frame.method();
    let action = if thread.height() <= 1 {
        Action::Ends {
            method,
            result: value,
            unlock,
        }
    } else {
        Action::Returns {
            method,
            result: value,
            unlock,
        }
    };
    Decision::Applies(action)
}

/// Decides that the top call, of this frame, returns and leaves its monitor.
fn returned_decision<'p>(
    parts: &Parts<'p>,
    t: ThreadId,
    thread: &Thread,
    frame: &Frame,
    value: Option<Value>,
) -> Decided<'p>
    ensures { decision_value result ≡ returned_decision parts.now.limits parts.now.state t frame.now
        (drop 1 thread.now.frames) value }
{
    match parts.frame_unlocking(t, frame) {
        Unlocking::Leaves(unlock) => returns_to(thread, frame, value, unlock),
        Unlocking::Fails => parts.fails_to_unlock(thread, frame),
    }
}

/// Decides a return of the topmost value, of this kind.
fn return_top_decision<'p>(
    parts: &Parts<'p>,
    t: ThreadId,
    thread: &Thread,
    frame: &Frame,
    given: &ResultType,
    kind: Kind,
) -> Decided<'p>
    ensures { decision_value result
        ≡ return_top_decision parts.now.limits parts.now.state t frame.now
        (drop 1 thread.now.frames) given.now kind }
{
    if frame.height() < u16::from(kind_size(kind)) {
        return bad(BadCause::Depth);
    }
    match top_value(kind, frame) {
        Some(value) if gives_kind(given, kind) => {
            returned_decision(parts, t, thread, frame, Some(value))
        }
        _ => bad(BadCause::Kind),
    }
}

/// Decides a return from a method with this result.
fn return_decision<'p>(
    parts: &Parts<'p>,
    t: ThreadId,
    thread: &Thread,
    frame: &Frame,
    given: &ResultType,
    how: ReturnInsn,
) -> Decided<'p>
    ensures { decision_value result ≡ return_decision parts.now.limits parts.now.state t frame.now
        (drop 1 thread.now.frames) given.now how }
{
    match how {
        ReturnInsn::Void => {
            if gives_nothing(given) {
                returned_decision(parts, t, thread, frame, None)
            } else {
                bad(BadCause::Kind)
            }
        }
        ReturnInsn::Value(kind @ (Kind::Int | Kind::Long | Kind::Reference)) => {
            return_top_decision(parts, t, thread, frame, given, kind)
        }
        ReturnInsn::Value(Kind::Float | Kind::Double) => bad(BadCause::OutOfProfile),
    }
}

/// Decides that the top call, of this frame, returns.
pub fn method_return_decision<'p>(
    parts: &Parts<'p>,
    t: ThreadId,
    thread: &Thread,
    frame: &Frame,
    how: ReturnInsn,
) -> Decided<'p>
    ensures { decision_value result
        ≡ method_return_decision parts.now.limits parts.now.state t frame.now
        (drop 1 thread.now.frames) how (method_at parts.now.program frame.now.method) }
{
    let Some(method) = parts.program().method(frame.method()) else {
        return never_seen();
    };
    return_decision(
        parts,
        t,
        thread,
        frame,
        &method.method_type.get().result,
        how,
    )
}
