//! Which threads stay: an exploration doesn't leave them.

ghost use Rattle.std.specs.Prelude.{◌≡◌};
ghost use Rattle.std.specs.List.{list_any};
ghost use Rattle.explore_jobs.specs.Children.{stays_in, turns_in};
ghost use Rattle.explore_jobs.specs.Stays.{includes, is_outside, top_method};
ghost use Rattle.jvms_program.specs.Program.{key_in, key_of};
ghost use Rattle.velodrome.specs.Specification.{is_of};

use atom_spec::{Pattern, Spec, SpecificationLine};
use campaign_jobs::machine::{FrameView, Machine, ThreadId, is_enabled};
use descriptor::same_text;
use jvms_program::number::MethodNumber;
use jvms_program::program::{Class, Method};
use program::Program;

/// Decides whether a thread can take a turn.
pub(crate) fn can_take(machine: &Machine<'_>, thread: ThreadId) -> bool
    ensures { result ≡ (turns_in machine.now).is_enabled machine.now.state thread }
{
    is_enabled(machine.peek(thread))
}

/// Decides whether a pattern includes a method of a class.
fn is_of(pattern: &Pattern, class: &Class, method: &Method) -> bool
    ensures { result ≡ is_of pattern.now (key_in class.now method.now) }
{
    let (of, called) = (class.name.as_slice(), method.name.as_slice());
    match pattern {
        Pattern::All => true,
        Pattern::Class { class } => same_text(of, class.as_slice()),
        Pattern::Named { class, name } => {
            same_text(of, class.as_slice()) && same_text(called, name.as_slice())
        }
        Pattern::Exactly {
            class,
            name,
            descriptor,
        } => {
            same_text(of, class.as_slice())
                && same_text(called, name.as_slice())
                && same_text(method.descriptor.as_slice(), descriptor.as_slice())
        }
    }
}

/// Decides whether the pattern of one of these lines includes a method of a class.
fn are_of(lines: &[SpecificationLine], class: &Class, method: &Method) -> bool
    ensures { result ≡ list_any (λ line. is_of line.pattern (key_in class.now method.now)) lines.now }
{
    lines.iter().any(|line| is_of(&line.pattern, class, method))
}

/// Decides whether the pattern of one of these lines includes the method of a number.
fn includes(program: &Program, lines: &[SpecificationLine], number: MethodNumber) -> bool
    ensures { result ≡ includes lines.now (key_of program.now number) }
{
    let Some(class) = program.class(number.class) else {
        return false;
    };
    let Some(method) = class.methods.as_slice().get(number.method) else {
        return false;
    };
    are_of(lines, class, method)
}

/// Decides whether the pattern of one of these lines includes the method of a thread's top frame.
fn is_inside(machine: &Machine<'_>, lines: &[SpecificationLine], thread: ThreadId) -> bool
    ensures { result
        ≡ includes lines.now (top_method machine.now.program machine.now.state thread) }
{
    match machine.frame(thread, 0) {
        Some(FrameView::Call(frame)) => includes(machine.program(), lines, frame.method()),
        Some(FrameView::Initialisation { .. }) => false,
        None => false,
    }
}

/// Decides whether there are lines, and none has a pattern that includes the method of the top frame of a thread that is
/// enabled.
fn is_outside(machine: &Machine<'_>, within: &Spec, thread: ThreadId) -> bool
    ensures { result ≡ is_outside machine.now.program machine.now.limits machine.now.start
        within.now machine.now.state thread }
{
    let lines = within.lines();
    !lines.is_empty() && can_take(machine, thread) && !is_inside(machine, lines, thread)
}

/// Decides whether a thread stays: its next turn is local, or it is enabled outside of the methods of these lines.
pub(crate) fn stays(machine: &Machine<'_>, within: &Spec, thread: ThreadId) -> bool
    ensures { result ≡ stays_in within.now machine.now machine.now.state thread }
{
    is_outside(machine, within, thread) || machine.is_local(thread)
}
