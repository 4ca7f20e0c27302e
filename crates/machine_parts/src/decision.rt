//! Types and helpers of decisions: what a turn will do, before it is applied.

ghost use Rattle.std.specs.Prelude.{◌≡◌, ◌+◌, ◌<◌, ◌^◌, Some};
ghost use Rattle.jvms_machine.specs.Activations.{has_depth};
ghost use Rattle.jvms_machine.specs.Decisions.{bad, never_seen, outcome_of};
ghost use Rattle.jvms_machine.specs.Fields.{reaches, read_decision, next_action};
ghost use Rattle.machine_parts.specs.Decided.{decision_value, effect_value};

use jvms_file::insn::ArrayType;
use jvms_machine::action::{Action, Decision, Effect, FrameAction};
use jvms_machine::machine::{BadCause, Outcome};
use jvms_machine::value::Value;
use jvms_program::program::Body;
use machine_thread::frames::Frame;
use shared_data::shared::Text;

/// A text of an action: one of the program, or the name of an array class. The name is built only when the turn is
/// applied.
#[derive(Clone, Copy)]
pub enum ActionText<'p> {
    /// A text of the program.
    Of(&'p Text),
    /// The name of the class of arrays with components of a primitive type.
    ArrayOfType(ArrayType),
    /// The name of the class of arrays with components of the named class.
    ArrayOfClass(&'p Text),
}

/// The decision on an instruction that reaches beyond its frame and completes normally: its effect, and the action on
/// its frame.
#[derive(Clone, Copy)]
pub struct Reached<'p> {
    pub effect: Effect<ActionText<'p>>,
    pub action: FrameAction,
}

/// The decision on a turn, which borrows code and texts from the program.
pub type Decided<'p> = Decision<&'p Body, ActionText<'p>>;

/// Returns the decision that the turn can't be taken, with its cause.
#[inline(always)]
pub fn bad<'p>(cause: BadCause) -> Decided<'p>
    ensures { decision_value result ≡ bad cause }
{
    Decision::Stays(Outcome::Bad { cause })
}

/// Returns the decision for cases that a sound state excludes, such as a missing class or method.
#[inline(always)]
pub fn never_seen<'p>() -> Decided<'p>
    ensures { decision_value result ≡ never_seen }
{
    bad(BadCause::OutOfProfile)
}

/// Decides whether there are `takes` operands, and whether `gives` in their place fit `max_stack`.
#[inline(always)]
pub fn has_depth(frame: &Frame, takes: u8, gives: u8) -> bool
    ensures { result ≡ has_depth frame.now.body takes gives frame.now.activation }
{
    machine_thread::exec::has_depth(frame, takes, gives)
}

/// Returns the decision that the top call continues, with this effect.
#[inline(always)]
pub fn reaches<'p>(effect: Effect<ActionText<'p>>, action: FrameAction) -> Decided<'p>
    ensures { decision_value result ≡ reaches (effect_value effect.entry) action }
{
    Decision::Applies(Action::Reaches(effect, action))
}

/// Decides to replace the topmost `takes` operands by a value that is read. Stops with `Depth` if the value doesn't fit
/// `max_stack`.
#[inline(always)]
pub fn read_decision<'p>(
    frame: &Frame,
    effect: Effect<ActionText<'p>>,
    takes: u8,
    value: Value,
) -> Decided<'p>
    ensures { decision_value result
        ≡ read_decision frame.now (effect_value effect.entry) takes (Some value) }
{
    if has_depth(frame, takes, machine_thread::exec::value_size(value)) {
        reaches(effect, FrameAction::Push { takes, value })
    } else {
        bad(BadCause::Depth)
    }
}

/// Returns the action that removes `takes` operands and moves on to the next instruction.
#[inline(always)]
pub fn next_action(takes: u16, frame: &Frame) -> FrameAction
    requires { frame.now.activation.place + 1 < 2 ^ 64 }
    ensures { result ≡ next_action takes frame.now.activation }
{
    FrameAction::Jump {
        takes,
        target: frame.place() + 1,
    }
}

/// Returns the outcome of a decision.
#[inline(always)]
pub fn outcome(decision: Decided<'_>) -> Outcome
    ensures { result ≡ outcome_of (decision_value decision.entry) }
{
    match decision {
        Decision::Stays(outcome) => outcome,
        Decision::Applies(
            Action::Ends { .. }
            | Action::Fails(_)
            | Action::Unwinds { last: true, .. }
            | Action::FailsToUnlock { last: true, .. }
            | Action::FailsInitialisation { last: true, .. },
        ) => Outcome::Ended { last: true },
        Decision::Applies(
            Action::Raises(_)
            | Action::Throws { .. }
            | Action::Unwinds { .. }
            | Action::FailsToUnlock { .. }
            | Action::FailsInitialisation { .. },
        ) => Outcome::Raised,
        Decision::Applies(_) => Outcome::Ran,
    }
}
