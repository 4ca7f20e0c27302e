//! Objects of classes, strings and class objects (JVMS 6.5 `new`, `checkcast`, `instanceof`, `ldc`).

ghost use Rattle.std.specs.Prelude.{◌≡◌, ◌+◌, ◌<◌, ◌≤◌, ◌^◌, ◌∷◌, Bool, [], IfSome, Some, false, length, true};
ghost use Rattle.std.specs.Option.{option_map};
ghost use Rattle.jvms_file.specs.declared.insn.ClassUse.TheVariants as class_use;
ghost use Rattle.jvms_program.specs.declared.program.Instruction.TheVariants as instruction;
ghost use Rattle.jvms_program.specs.Program.{class_named, class_number};
ghost use Rattle.jvms_program.specs.Resolution.{class_exists, fits};
ghost use Rattle.jvms_machine.specs.Decisions.{TurnDecision};
ghost use Rattle.jvms_machine.specs.Arrays.{if_deep};
ghost use Rattle.jvms_machine.specs.Objects.{is_instantiable, creation_if_room, instance_of_number, new_instance_decision, with_class_of, cast, instance_test_result, existing_or_new, class_decision, loadable_decision};
ghost use Rattle.jvms_machine.specs.Fields.{reaches, next_action};
ghost use Rattle.jvms_machine.specs.declared.value.Value.TheVariants as value;
ghost use Rattle.jvms_machine.specs.declared.action.Effect.TheVariants as effect;
ghost use Rattle.jvms_machine.specs.declared.action.NewObject.TheVariants as new_object;
ghost use Rattle.jvms_program.specs.declared.program.Loadable.TheVariants as loadable;
ghost use Rattle.jvms_machine.specs.State.{class_reference, text_reference};
ghost use Rattle.machine_parts.specs.Decided.{decision_value, object_value};
ghost use Rattle.machine_parts.specs.Sites.{IsSite};
ghost use Rattle.exec_ref.specs.InstanceTests.{by_instance_test};
ghost use Rattle.heap.specs.Objects.{IsNumberOf};

use crate::arrays::{creation_decision, new_class_array_decision};
use frames::Frame;
use heap::ObjectClass;
use heap::program::Program;
use jvms_file::insn::ClassUse;
use jvms_machine::action::{Effect, FrameAction, NewObject};
use jvms_machine::machine::{BadCause, ThreadId};
use jvms_machine::value::Value;
use jvms_program::number::ClassNumber;
use jvms_program::program::{Class, ClassKind, Loadable};
use jvms_program::thrown::Thrown;
use machine_parts::machine_thread::Thread;
use machine_parts::{ActionText, Decided, Parts, bad, has_depth, never_seen, next_action, reaches};
use shared_data::shared::Text;

/// The result of testing the topmost operand against a class.
#[derive(Clone, Copy)]
pub(crate) enum InstanceTest<'p> {
    /// The operand is null.
    Null,
    /// The object is an instance of the class, or isn't.
    IsInstance(bool),
    /// The turn does this instead.
    Stops(Decided<'p>),
}

fn is_instantiable(kind: ClassKind) -> bool
    ensures { result ≡ is_instantiable kind }
{
    match kind {
        ClassKind::Neither => true,
        ClassKind::Abstract | ClassKind::Interface => false,
    }
}

/// Returns the decision of JVMS 6.5 `instanceof` to replace the object by the result of the test.
fn instance_test_result<'p>(is_instance: bool) -> Decided<'p>
    ensures { decision_value result ≡ instance_test_result is_instance }
{
    let value = Value::Int(i32::from(is_instance));
    reaches(Effect::Nothing, FrameAction::Push { takes: 1, value })
}

/// Decides the creation of an object, if there is room for one.
fn creation_if_room<'p>(
    parts: &Parts<'p>,
    thread: &Thread,
    takes: u8,
    what: NewObject<ActionText<'p>>,
) -> Decided<'p>
    ensures { decision_value result
        ≡ creation_if_room parts.now.limits parts.now.state thread.now takes
        (object_value what.entry) }
{
    if parts.has_room() {
        creation_decision(parts, takes, what)
    } else {
        parts.throws(thread, Thrown::OutOfMemoryError)
    }
}

/// Decides the creation of an instance of a class by its number, once the class is initialised.
fn instance_of_number<'p>(
    parts: &Parts<'p>,
    t: ThreadId,
    thread: &Thread,
    class: ClassNumber,
) -> Decided<'p>
    ensures { decision_value result ≡ instance_of_number parts.now.program
        parts.now.limits parts.now.state t thread.now (Some class) }
{
    match parts.class_use_decision(t, thread, class) {
        Some(decision) => decision,
        None => creation_if_room(parts, thread, 0, NewObject::Instance { class }),
    }
}

/// Returns the class that a call's instruction names, with its number, if it exists.
fn class_of_site<'p>(
    parts: &Parts<'p>,
    frame: &Frame,
    how: ClassUse,
    name: &[u16],
) -> Option<(usize, &'p Class)>
    requires { IsSite parts.now.program frame.now (instruction.Class how name.now) }
    ensures number { option_map (λ found. found.0) result
        ≡ class_number parts.now.program name.now }
    ensures class { option_map (λ found. found.1.now) result
        ≡ class_named parts.now.program name.now }
{
    parts
        .program()
        .class_at(frame.method(), frame.place(), how, name)
}

/// Decides JVMS 6.5 `new`. It tests that the class exists, then that it is neither abstract nor an interface, then its
/// initialisation, then the room.
fn new_instance_decision<'p>(
    parts: &Parts<'p>,
    t: ThreadId,
    thread: &Thread,
    frame: &Frame,
    name: &[u16],
) -> Decided<'p>
    requires { IsSite parts.now.program frame.now (instruction.Class class_use.New name.now) }
    ensures { decision_value result ≡ new_instance_decision parts.now.program parts.now.limits
        parts.now.state t thread.now name.now (class_named parts.now.program name.now) }
{
    match class_of_site(parts, frame, ClassUse::New, name) {
        None => parts.throws(thread, Thrown::NoClassDefFoundError),
        Some((number, class)) => {
            if is_instantiable(class.kind) {
                instance_of_number(parts, t, thread, number)
            } else {
                parts.throws(thread, Thrown::InstantiationError)
            }
        }
    }
}

/// Tests the class of an object against the class that the instruction of a frame names. Returns `None` if the number of
/// one of them isn't known.
fn test_by_number(
    program: &Program,
    frame: &Frame,
    how: ClassUse,
    name: &[u16],
    class: ObjectClass<'_>,
) -> Option<bool>
    requires site { IsSite program.now frame.now (instruction.Class how name.now) }
    requires number { IsNumberOf program.now class.number class.name.now }
    ensures there { IfSome result (λ is. class_exists program.now name.now ≡ true) }
    ensures fits { IfSome result (λ is. is ≡ fits program.now class.entry.name.now name.now) }
{
    let number = class.number?;
    let above = program.class_number_at(frame.method(), frame.place(), how, name)?;
    Some(program.is_subclass(number, above))
}

/// Tests the object of a reference against the class that the instruction of a frame names, which is resolved first.
fn test_object<'p>(
    parts: &Parts<'p>,
    thread: &Thread,
    frame: &Frame,
    how: ClassUse,
    name: &[u16],
    reference: u32,
) -> InstanceTest<'p>
    requires { IsSite parts.now.program frame.now (instruction.Class how name.now) }
    ensures { (null : TurnDecision) → (on_result : Bool → TurnDecision)
        → by_instance_test null on_result result ≡ with_class_of parts.now.program parts.now.limits
        parts.now.state thread.now name.now (value.Reference reference ∷ []) null on_result }
{
    let Some(class) = parts.heap.object_class(reference) else {
        return InstanceTest::Stops(never_seen());
    };
    let program = parts.program();
    if let Some(is_instance) = test_by_number(program, frame, how, name, class) {
        InstanceTest::IsInstance(is_instance)
    } else if program.has_class(name) {
        InstanceTest::IsInstance(class.fits(program, name))
    } else {
        InstanceTest::Stops(parts.throws(thread, Thrown::NoClassDefFoundError))
    }
}

/// Tests the topmost operand against the class that the instruction of a frame names. Null is tested before the class is
/// resolved.
fn test_top<'p>(
    parts: &Parts<'p>,
    thread: &Thread,
    frame: &Frame,
    how: ClassUse,
    name: &[u16],
) -> InstanceTest<'p>
    requires depth { 1 ≤ length frame.now.activation.operands }
    requires site { IsSite parts.now.program frame.now (instruction.Class how name.now) }
    ensures { (null : TurnDecision) → (on_result : Bool → TurnDecision)
        → by_instance_test null on_result result ≡ with_class_of parts.now.program parts.now.limits
        parts.now.state thread.now name.now frame.now.activation.operands null on_result }
{
    match frame.top() {
        Value::Null => InstanceTest::Null,
        Value::Reference(reference) => test_object(parts, thread, frame, how, name, reference),
        Value::Int(_) | Value::Long(_) | Value::Second | Value::ReturnAddress(_) | Value::Unset => {
            InstanceTest::Stops(bad(BadCause::Kind))
        }
    }
}

/// Decides JVMS 6.5 `checkcast`. The object stays on the operand stack.
fn cast_decision<'p>(parts: &Parts<'p>, thread: &Thread, frame: &Frame, name: &[u16]) -> Decided<'p>
    requires place { frame.now.activation.place + 1 < 2 ^ 64 }
    requires site { IsSite parts.now.program frame.now
        (instruction.Class class_use.CheckCast name.now) }
    ensures { decision_value result ≡ if_deep frame.now 1 1
        (with_class_of parts.now.program parts.now.limits parts.now.state thread.now name.now
        frame.now.activation.operands (reaches effect.Nothing (next_action 0 frame.now.activation))
        (cast parts.now.limits parts.now.state thread.now frame.now)) }
{
    if !has_depth(frame, 1, 1) {
        return bad(BadCause::Depth);
    }
    match test_top(parts, thread, frame, ClassUse::CheckCast, name) {
        InstanceTest::Stops(decision) => decision,
        InstanceTest::Null | InstanceTest::IsInstance(true) => reaches(
            Effect::Nothing,
            next_action(0, frame),
        ),
        InstanceTest::IsInstance(false) => parts.throws(thread, Thrown::ClassCastException),
    }
}

/// Decides JVMS 6.5 `instanceof`.
fn instance_test_decision<'p>(
    parts: &Parts<'p>,
    thread: &Thread,
    frame: &Frame,
    name: &[u16],
) -> Decided<'p>
    requires { IsSite parts.now.program frame.now
        (instruction.Class class_use.InstanceOf name.now) }
    ensures { decision_value result ≡ if_deep frame.now 1 1
        (with_class_of parts.now.program parts.now.limits parts.now.state thread.now name.now
        frame.now.activation.operands (instance_test_result false) instance_test_result) }
{
    if !has_depth(frame, 1, 1) {
        return bad(BadCause::Depth);
    }
    match test_top(parts, thread, frame, ClassUse::InstanceOf, name) {
        InstanceTest::Stops(decision) => decision,
        InstanceTest::Null => instance_test_result(false),
        InstanceTest::IsInstance(is_instance) => instance_test_result(is_instance),
    }
}

/// Decides the instructions that name a class.
#[tactic(auto, unfolding(jvms_machine::specs::Objects::class_decision))]
pub fn class_decision<'p>(
    parts: &Parts<'p>,
    t: ThreadId,
    thread: &Thread,
    frame: &Frame,
    how: ClassUse,
    name: &'p Text,
) -> Decided<'p>
    requires place { frame.now.activation.place + 1 < 2 ^ 64 }
    requires site { IsSite parts.now.program frame.now (instruction.Class how name.now) }
    ensures { decision_value result ≡ class_decision parts.now.program parts.now.limits
        parts.now.state t thread.now frame.now how name.now }
{
    match how {
        ClassUse::New => {
            if has_depth(frame, 0, 1) {
                new_instance_decision(parts, t, thread, frame, name.as_slice())
            } else {
                bad(BadCause::Depth)
            }
        }
        ClassUse::NewArray => new_class_array_decision(parts, thread, frame, name),
        ClassUse::CheckCast => cast_decision(parts, thread, frame, name.as_slice()),
        ClassUse::InstanceOf => instance_test_decision(parts, thread, frame, name.as_slice()),
    }
}

/// Decides to push the existing object, or else a new one. Equal strings share one object, and a class has one.
fn existing_or_new<'p>(
    parts: &Parts<'p>,
    thread: &Thread,
    existing: Option<u32>,
    what: NewObject<ActionText<'p>>,
) -> Decided<'p>
    ensures { decision_value result
        ≡ existing_or_new parts.now.limits parts.now.state thread.now existing
        (object_value what.entry) }
{
    match existing {
        None => creation_if_room(parts, thread, 0, what),
        Some(reference) => {
            let value = Value::Reference(reference);
            reaches(Effect::Nothing, FrameAction::Push { takes: 0, value })
        }
    }
}

/// Decides JVMS 6.5 `ldc` of a string.
fn string_decision<'p>(
    parts: &Parts<'p>,
    thread: &Thread,
    frame: &Frame,
    units: &'p Text,
) -> Decided<'p>
    ensures { decision_value result
        ≡ if_deep frame.now 0 1
        (existing_or_new parts.now.limits parts.now.state thread.now
        (text_reference parts.now.state.heap units.now) (new_object.Text units.now)) }
{
    if !has_depth(frame, 0, 1) {
        return bad(BadCause::Depth);
    }
    let existing = parts.heap.text_reference(units.as_slice());
    let units = ActionText::Of(units);
    existing_or_new(parts, thread, existing, NewObject::Text { units })
}

/// Decides to push the object of an existing class.
fn class_object_decision<'p>(parts: &Parts<'p>, thread: &Thread, name: &'p Text) -> Decided<'p>
    ensures { decision_value result ≡ existing_or_new parts.now.limits parts.now.state thread.now
        (class_reference parts.now.state.heap name.now) (new_object.ClassObject name.now) }
{
    let existing = parts.heap.class_reference(name.as_slice());
    let name = ActionText::Of(name);
    existing_or_new(parts, thread, existing, NewObject::ClassObject { name })
}

/// Decides JVMS 6.5 `ldc` of a class.
#[tactic(auto, unfolding(jvms_machine::specs::Objects::loadable_decision))]
fn named_class_decision<'p>(
    parts: &Parts<'p>,
    thread: &Thread,
    frame: &Frame,
    name: &'p Text,
) -> Decided<'p>
    ensures { decision_value result ≡ loadable_decision parts.now.program parts.now.limits
        parts.now.state thread.now frame.now (loadable.Class name.now) }
{
    if !has_depth(frame, 0, 1) {
        return bad(BadCause::Depth);
    }
    if parts.program().has_class(name.as_slice()) {
        class_object_decision(parts, thread, name)
    } else {
        parts.throws(thread, Thrown::NoClassDefFoundError)
    }
}

/// Decides JVMS 6.5 `ldc` of a string or a class.
#[tactic(auto, unfolding(jvms_machine::specs::Objects::loadable_decision))]
pub fn loadable_decision<'p>(
    parts: &Parts<'p>,
    thread: &Thread,
    frame: &Frame,
    what: &'p Loadable,
) -> Decided<'p>
    ensures { decision_value result ≡ loadable_decision parts.now.program
        parts.now.limits parts.now.state thread.now frame.now what.now }
{
    match what {
        Loadable::String(units) => string_decision(parts, thread, frame, units),
        Loadable::Class(name) => named_class_decision(parts, thread, frame, name),
        Loadable::Integer(_) | Loadable::Float(_) | Loadable::Long(_) | Loadable::Double(_) =>
            never_seen(),
    }
}
