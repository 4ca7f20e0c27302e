//! Finds the open switch, as far as the operands of a line depend on it.

ghost use Rattle.std.specs.Prelude.{◌≡◌};
ghost use Rattle.jasmin.specs.Reading.{last_value, switch_of_lines, switch_of_method, switch_of, sort_of};

use descriptor::Flags;
use jasmin::reading::{OpenMethod, Reading, SwitchLines};
use jasmin::source::MatchLine;
use jasmin::statement::{ClassSort, OpenSwitch};

/// Returns the last value of a `lookupswitch`, if it has one.
#[tactic(auto, using(crate::proofs::LastValues::last_value_of))]
fn last_value(matches: &[MatchLine]) -> Option<i32>
    ensures { result ≡ last_value matches.now }
{
    match matches.last() {
        Some(line) => Some(line.value),
        None => None,
    }
}

/// Returns the open switch of these lines.
fn switch_of_lines(lines: &SwitchLines) -> OpenSwitch
    ensures { result ≡ switch_of_lines (Some lines.now) }
{
    match lines {
        SwitchLines::Table { low, labels } => OpenSwitch::Table {
            next: i64::from(*low) + labels.as_slice().len() as i64,
        },
        SwitchLines::Lookup { matches } => OpenSwitch::Lookup {
            last: last_value(matches.as_slice()),
        },
    }
}

/// Returns the open switch of a method.
fn switch_of_method(method: &OpenMethod) -> OpenSwitch
    ensures { result ≡ switch_of_method (Some method.now) }
{
    match &method.switch {
        Some(lines) => switch_of_lines(lines),
        None => OpenSwitch::None,
    }
}

/// Returns the open switch of the lines so far.
pub(crate) fn switch_of(reading: &Reading) -> OpenSwitch
    ensures { result ≡ switch_of reading.now }
{
    match &reading.method {
        Some(method) => switch_of_method(method),
        None => OpenSwitch::None,
    }
}

/// Returns the sort of class that has these flags.
pub(crate) fn sort_of(access: u16) -> ClassSort
    ensures { result ≡ sort_of access }
{
    if Flags::of_access(access).is_interface() {
        ClassSort::Interface
    } else {
        ClassSort::Class
    }
}
