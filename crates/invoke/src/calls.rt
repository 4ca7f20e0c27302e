//! Calls (JVMS 2.6.1, 2.6.4): entering a method, and the first call of a thread. Thread 0 calls the entry's method, and
//! any other thread calls `run` of its Thread object.

ghost use Rattle.std.specs.Prelude.{◌≡◌, Some};
ghost use Rattle.jvms_program.specs.declared.program.Body.{Body as Code};
ghost use Rattle.jvms_machine.specs.declared.action.Lock.{Lock as Locked};
ghost use Rattle.jvms_machine.specs.Decisions.{TurnDecision};
ghost use Rattle.jvms_machine.specs.Calls.{enter_decision, called_decision, entry_decision, first_call, first_call_decision};
ghost use Rattle.machine_parts.specs.Decided.{decision_value};
ghost use Rattle.invoke.specs.Calling.{made_of};

pub(crate) mod fast;
pub(crate) mod invoke;
mod operands;
mod run_method;

use crate::calls::run_method::run_decision;
use jvms_machine::action::{Action, Decision, Lock};
use jvms_machine::machine::{BadCause, ThreadId};
use jvms_program::number::MethodNumber;
use jvms_program::program::{Body, Method};
use jvms_program::thrown::Thrown;
use machine_parts::exec::is_outside_method;
use machine_parts::machine_thread::Thread;
use machine_parts::{Decided, Locking, Parts, bad, never_seen};

/// The decision on the call of a method.
#[derive(Clone, Copy)]
pub(crate) enum Called<'p> {
    /// The call enters this code, and locks this.
    Enters(&'p Body, Lock),
    /// The method is native, and has no code.
    IsNative,
    /// The turn does this instead.
    Stops(Decided<'p>),
}

/// The receiver of a call, if it has one, and the number of its argument slots, those of the receiver included.
#[derive(Clone, Copy)]
pub(crate) struct Given {
    pub(crate) receiver: Option<u32>,
    pub(crate) arguments: usize,
}

/// Decides to enter a method's code. It tests the room for one more frame, then that the local variables fit the
/// arguments, then the monitor of a synchronized method.
fn enter_decision<'p>(
    parts: &Parts<'p>,
    t: ThreadId,
    thread: &Thread,
    n: MethodNumber,
    method: &Method,
    given: Given,
    code: &'p Body,
) -> Called<'p>
    ensures { (native : TurnDecision) → (make : Code → Locked → TurnDecision)
        → made_of native make result
        ≡ enter_decision parts.now.program parts.now.limits parts.now.state t thread.now
        n method.now given.receiver given.arguments code.now (make code.now) }
{
    if parts.limits.frames as usize <= thread.height() {
        return Called::Stops(parts.throws(thread, Thrown::StackOverflowError));
    }
    if usize::from(code.max_locals) < given.arguments {
        return Called::Stops(bad(BadCause::Local));
    }
    match parts.call_locking(t, thread, n, method, given.receiver) {
        Locking::Stops(decision) => Called::Stops(decision),
        Locking::Locks(lock) => Called::Enters(code, lock),
    }
}

/// Decides the call of a selected method.
fn called_decision<'p>(
    parts: &Parts<'p>,
    t: ThreadId,
    thread: &Thread,
    n: MethodNumber,
    method: &'p Method,
    given: Given,
) -> Called<'p>
    ensures { (native : TurnDecision) → (make : Code → Locked → TurnDecision)
        → made_of native make result ≡ called_decision parts.now.program parts.now.limits
        parts.now.state t thread.now n method.now given.receiver given.arguments native make }
{
    if method.flags.is_abstract {
        return Called::Stops(parts.throws(thread, Thrown::AbstractMethodError));
    }
    if method.flags.is_native {
        return Called::IsNative;
    }
    match &method.body {
        None => Called::Stops(never_seen()),
        Some(code) => enter_decision(parts, t, thread, n, method, given, code),
    }
}

/// Decides the first call of a thread, of this method.
fn first_call<'p>(
    parts: &Parts<'p>,
    t: ThreadId,
    thread: &Thread,
    n: MethodNumber,
    method: &'p Method,
    given: Given,
) -> Decided<'p>
    ensures { decision_value result ≡ first_call parts.now.program parts.now.limits
        parts.now.state t thread.now given.receiver given.arguments n method.now }
{
    match called_decision(parts, t, thread, n, method, given) {
        Called::Stops(decision) => decision,
        Called::IsNative => parts.throws(thread, Thrown::UnsatisfiedLinkError),
        Called::Enters(code, lock) => Decision::Applies(Action::Enters {
            method: n,
            code,
            lock,
        }),
    }
}

/// Decides the call of the entry's method, once its class is initialised.
fn entry_decision<'p>(
    parts: &Parts<'p>,
    t: ThreadId,
    thread: &Thread,
    method: &'p Method,
) -> Decided<'p>
    ensures { decision_value result ≡ entry_decision parts.now.program parts.now.limits
        parts.now.start parts.now.state t thread.now (Some method.now) }
{
    if is_outside_method(method.method_type.get()) {
        return bad(BadCause::OutOfProfile);
    }
    if let Some(decision) = parts.class_use_decision(t, thread, parts.method.class) {
        return decision;
    }
    let given = Given {
        receiver: None,
        arguments: parts.arguments.len(),
    };
    first_call(parts, t, thread, parts.method, method, given)
}

/// Decides the first call of a thread.
pub fn first_call_decision<'p>(parts: &Parts<'p>, t: ThreadId, thread: &Thread) -> Decided<'p>
    ensures { decision_value result ≡ first_call_decision parts.now.program
        parts.now.limits parts.now.start parts.now.state t thread.now }
{
    if t != 0 {
        return run_decision(parts, t, thread);
    }
    match parts.program().method(parts.method) {
        None => never_seen(),
        Some(method) => entry_decision(parts, t, thread, method),
    }
}
