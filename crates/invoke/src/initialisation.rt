//! The initialisation of classes (JVMS 5.5).

ghost use Rattle.std.specs.Prelude.{◌≡◌, Some, slice_get};
ghost use Rattle.jvms_machine.specs.Decisions.{TurnDecision};
ghost use Rattle.jvms_machine.specs.Initialisation.{initializer_of, asked_superclass, initializer_decision, superclass_decision, initialisation_decision};
ghost use Rattle.machine_parts.specs.Before.{first_or};
ghost use Rattle.machine_parts.specs.Decided.{decision_value};

use jvms_machine::action::{Action, Decision};
use jvms_machine::machine::ThreadId;
use jvms_program::number::{ClassNumber, MethodNumber};
use jvms_program::program::{Class, ClassKind};
use jvms_program::thrown::Thrown;
use machine_parts::classes::declared_number;
use machine_parts::machine_thread::Thread;
use machine_parts::program::Program;
use machine_parts::{Decided, Parts, never_seen};

/// The name of the method that initialises a class, `<clinit>`.
const INITIALIZER: [u16; 8] = [60, 99, 108, 105, 110, 105, 116, 62];

/// Its descriptor, `()V`.
const INITIALIZER_DESCRIPTOR: [u16; 3] = [40, 41, 86];

/// Returns the index of a class's `<clinit>()V` among its methods.
fn initializer_of(class: &Class) -> Option<usize>
    ensures { result ≡ initializer_of class.now }
{
    declared_number(class, &INITIALIZER, &INITIALIZER_DESCRIPTOR)
}

/// Returns the number of the superclass that initialisation requires. An interface requires none.
fn asked_superclass(program: &Program, class: &Class) -> Option<ClassNumber>
    ensures { result ≡ asked_superclass program.now class.now }
{
    if matches!(class.kind, ClassKind::Interface) {
        return None;
    }
    let superclass = class.superclass.as_ref()?;
    program.class_number(superclass.as_slice())
}

/// Decides the call of a class's `<clinit>`, if there is room for a frame. The flags of the method aren't tested.
fn initializer_call<'p>(
    parts: &Parts<'p>,
    thread: &Thread,
    c: &'p Class,
    class: ClassNumber,
    number: usize,
) -> Decided<'p>
    ensures { decision_value result ≡ initializer_decision parts.now.limits
        parts.now.state thread.now c.now class (Some number) }
{
    let Some(method) = c.methods.as_slice().get(number) else {
        return never_seen();
    };
    let Some(code) = &method.body else {
        return never_seen();
    };
    if parts.limits.frames as usize <= thread.height() {
        return parts.throws(thread, Thrown::StackOverflowError);
    }
    Decision::Applies(Action::Initialises {
        method: MethodNumber {
            class,
            method: number,
        },
        code,
    })
}

/// Decides the initialisation of a class that waits for no superclass. It calls the `<clinit>`, or finishes if there is
/// none.
fn initializer_decision<'p>(
    parts: &Parts<'p>,
    thread: &Thread,
    c: &'p Class,
    class: ClassNumber,
) -> Decided<'p>
    ensures { decision_value result ≡ initializer_decision parts.now.limits
        parts.now.state thread.now c.now class (initializer_of c.now) }
{
    match initializer_of(c) {
        None => Decision::Applies(Action::Finishes { class }),
        Some(number) => initializer_call(parts, thread, c, class, number),
    }
}

/// Decides the initialisation of the superclass, if there is one. Returns `None` if the subclass continues.
fn superclass_decision<'p>(
    parts: &Parts<'p>,
    t: ThreadId,
    thread: &Thread,
    superclass: Option<ClassNumber>,
) -> Option<Decided<'p>>
    ensures { (continued : TurnDecision) → first_or continued result
        ≡ superclass_decision parts.now.program parts.now.limits parts.now.state t thread.now
        superclass continued }
{
    match superclass {
        None => None,
        Some(class) => parts.class_use_decision(t, thread, class),
    }
}

/// Decides a turn with an initialisation on top.
pub fn initialisation_decision<'p>(
    parts: &Parts<'p>,
    t: ThreadId,
    thread: &Thread,
    class: ClassNumber,
    called: bool,
) -> Decided<'p>
    ensures { decision_value result ≡ initialisation_decision parts.now.program parts.now.limits
        parts.now.state t thread.now class called (slice_get parts.now.program class) }
{
    let Some(c) = parts.program().class(class) else {
        return never_seen();
    };
    if called {
        return Decision::Applies(Action::Finishes { class });
    }
    let superclass = asked_superclass(parts.program(), c);
    match superclass_decision(parts, t, thread, superclass) {
        Some(decision) => decision,
        None => initializer_decision(parts, thread, c, class),
    }
}
