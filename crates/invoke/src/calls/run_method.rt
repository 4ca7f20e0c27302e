//! The first call of a started thread: `run` of its Thread object (Java SE API, `Thread.run`).

ghost use Rattle.std.specs.Prelude.{◌≡◌, Some};
ghost use Rattle.machine_parts.specs.classes.Places.{IsMethodAt, LocatesItem};
ghost use Rattle.jvms_program.specs.Resolution.{ResolvedMethod};
ghost use Rattle.jvms_machine.specs.Calls.{run_of_object, run_decision, selected_run};
ghost use Rattle.jvms_machine.specs.State.{object_at};
ghost use Rattle.std.specs.Prelude.{Option};
ghost use Rattle.machine_parts.specs.Decided.{decision_value};

use super::{Given, first_call};
use jvms_machine::machine::ThreadId;
use jvms_program::number::MethodNumber;
use jvms_program::thrown::Thrown;
use machine_parts::machine_thread::Thread;
use machine_parts::{Decided, Parts, never_seen};

/// `run`
const RUN: [u16; 3] = [114, 117, 110];

/// `()V`, the descriptor of a method without parameters and result.
const NOTHING: [u16; 3] = [40, 41, 86];

/// Decides the call of the selected `run` for a Thread object. Throws `AbstractMethodError` if there is none.
fn selected_run<'p>(
    parts: &Parts<'p>,
    t: ThreadId,
    thread: &Thread,
    receiver: u32,
    selected: Option<MethodNumber>,
) -> Decided<'p>
    ensures { (what : Option ResolvedMethod)
        → LocatesItem (IsMethodAt parts.now.program) what selected → decision_value result
        ≡ selected_run parts.now.program parts.now.limits parts.now.state t thread.now receiver
        what }
{
    let Some(n) = selected else {
        return parts.throws(thread, Thrown::AbstractMethodError);
    };
    let given = Given {
        receiver: Some(receiver),
        arguments: 1,
    };
    match parts.program().method(n) {
        None => never_seen(),
        Some(method) => first_call(parts, t, thread, n, method, given),
    }
}

/// Decides the call of `run` for the object of a reference.
fn run_of_object<'p>(parts: &Parts<'p>, t: ThreadId, thread: &Thread, reference: u32) -> Decided<'p>
    ensures { decision_value result ≡ run_of_object parts.now.program parts.now.limits
        parts.now.state t thread.now reference (object_at parts.now.state.heap reference) }
{
    match parts.heap.class_of(reference) {
        None => never_seen(),
        Some(class) => {
            let selected = parts
                .program()
                .by_name()
                .select_named(class, &RUN, &NOTHING);
            selected_run(parts, t, thread, reference, selected)
        }
    }
}

/// Decides the call of `run` for the thread's object.
pub(crate) fn run_decision<'p>(parts: &Parts<'p>, t: ThreadId, thread: &Thread) -> Decided<'p>
    ensures { decision_value result ≡ run_decision parts.now.program
        parts.now.limits parts.now.state t thread.now thread.now.object }
{
    match thread.object() {
        None => never_seen(),
        Some(reference) => run_of_object(parts, t, thread, reference),
    }
}
