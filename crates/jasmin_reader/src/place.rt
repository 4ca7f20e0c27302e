//! Decides which lines are allowed at a place.

ghost use Rattle.std.specs.Prelude.{◌≡◌};
ghost use Rattle.jasmin.specs.Reading.{rank, part_of, is_in_order, is_placed, may_have_instructions, has_no_switch, has_labels, is_in_place};

use crate::switch::switch_of;
use descriptor::{Flags, is_initializer_name};
use jasmin::reading::{OpenMethod, Part, Reading, SwitchLines};
use jasmin::statement::{Directive, LineKind, OpenSwitch};

/// Returns the position of a part among the others.
fn rank(part: Part) -> u8
    ensures { result ≡ rank part }
{
    match part {
        Part::Beginning => 0,
        Part::Class => 1,
        Part::Super => 2,
        Part::Implements => 3,
        Part::Members => 4,
    }
}

/// Returns the part that a directive outside of methods belongs to.
fn part_of(directive: Directive) -> Option<Part>
    ensures { result ≡ part_of directive }
{
    match directive {
        Directive::Bytecode | Directive::Source => Some(Part::Beginning),
        Directive::Class | Directive::Interface => Some(Part::Class),
        Directive::Super => Some(Part::Super),
        Directive::Implements => Some(Part::Implements),
        Directive::Field | Directive::Method => Some(Part::Members),
        Directive::End
        | Directive::Limit
        | Directive::Catch
        | Directive::Throws
        | Directive::Line
        | Directive::Var => None,
    }
}

/// Decides whether a statement of a part is allowed: no later part has a statement, and all parts after the class
/// follow the class.
fn is_in_order(latest: Part, part: Part) -> bool
    ensures { result ≡ is_in_order latest part }
{
    rank(latest) <= rank(part) && (rank(part) <= 1 || 1 <= rank(latest))
}

/// Decides whether a directive is allowed at this place: one of a part outside of methods, any other inside a method.
fn is_placed(latest: Part, in_method: bool, part: Option<Part>) -> bool
    ensures { result ≡ is_placed latest in_method part }
{
    match part {
        Some(part) => !in_method && is_in_order(latest, part),
        None => in_method,
    }
}

/// Decides whether the open method may have instructions: it is neither native nor abstract, or is `<clinit>`.
fn may_have_instructions(method: &Option<OpenMethod>) -> bool
    ensures { result ≡ may_have_instructions method.now }
{
    match method {
        Some(method) => {
            let flags = Flags::of_access(method.access);
            is_initializer_name(method.name.as_slice())
                || !(flags.is_native() || flags.is_abstract())
        }
        None => false,
    }
}

fn has_no_switch(switch: OpenSwitch) -> bool
    ensures { result ≡ has_no_switch switch }
{
    matches!(switch, OpenSwitch::None)
}

/// Decides whether the open switch may have its default. That of a `tableswitch` follows at least one label.
fn has_labels(method: &Option<OpenMethod>) -> bool
    ensures { result ≡ has_labels method.now }
{
    match method {
        Some(method) => match &method.switch {
            Some(SwitchLines::Table { low: _, labels }) => !labels.as_slice().is_empty(),
            _ => true,
        },
        None => true,
    }
}

/// Decides whether a line of a kind is allowed at this place.
#[tactic(auto, unfolding(jasmin::specs::Reading::is_in_place))]
pub(crate) fn is_in_place(reading: &Reading, kind: LineKind) -> bool
    ensures { result ≡ is_in_place reading.now kind }
{
    match kind {
        LineKind::Blank | LineKind::Case => true,
        LineKind::Directive(directive) => {
            has_no_switch(switch_of(reading))
                && is_placed(reading.part, reading.method.is_some(), part_of(directive))
        }
        LineKind::Default => has_labels(&reading.method),
        LineKind::Label => reading.method.is_some(),
        LineKind::Instruction(_) | LineKind::LabelledInstruction(_) => {
            may_have_instructions(&reading.method)
        }
    }
}
