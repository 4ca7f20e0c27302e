//! Decides whether two events conflict (Velodrome, section 3).

ghost use Rattle.std.specs.Prelude.{◌≡◌};
ghost use Rattle.std.specs.Option.{option_map};
ghost use Rattle.jvms_program.specs.Slots.{same_key};
ghost use Rattle.velodrome.specs.Conflicts.{conflict, is_write, monitor_of, on_one_variable, same_number, same_variable, started_or_joined, variable_of};

use crate::labels::item_at;
use crate::rows::Row;
use accesses::thread_of;
use atom_graph::Checker;
use jvms_machine::machine::ThreadId;
use jvms_machine::trace::{Item, Variable};
use jvms_program::key::FieldKey;

/// Returns the object whose monitor an event enters or leaves.
fn monitor_of(item: &Item) -> Option<u32>
    ensures { result ≡ monitor_of item.now }
{
    match item {
        Item::Acquire { reference, .. } | Item::Release { reference, .. } => Some(*reference),
        _ => None,
    }
}

/// Returns the variable that an event reads or writes.
fn variable_of(item: &Item) -> Option<&Variable>
    ensures { option_map (λ v. v.now) result ≡ variable_of item.now }
{
    match item {
        Item::Read { variable, .. } | Item::Write { variable, .. } => Some(variable),
        _ => None,
    }
}

/// Returns whether an event writes a variable.
fn is_write(item: &Item) -> bool
    ensures { result ≡ is_write item.now }
{
    matches!(item, Item::Write { .. })
}

/// Returns the thread that an event starts, or whose end it waited for.
fn started_or_joined(item: &Item) -> Option<ThreadId>
    ensures { result ≡ started_or_joined item.now }
{
    match item {
        Item::Fork { started, .. } => Some(*started),
        Item::Join { ended, .. } => Some(*ended),
        _ => None,
    }
}

/// Returns whether both numbers exist and are equal.
fn same_number(one: Option<u32>, other: Option<u32>) -> bool
    ensures { result ≡ same_number one other }
{
    match (one, other) {
        (Some(one), Some(other)) => one == other,
        _ => false,
    }
}

/// Returns whether two keys of fields are equal.
fn same_key(one: &FieldKey, other: &FieldKey) -> bool
    ensures { result ≡ same_key one.now other.now }
{
    one.class == other.class && one.name == other.name && one.descriptor == other.descriptor
}

/// Returns whether two variables are equal.
fn same_variable(one: &Variable, other: &Variable) -> bool
    ensures { result ≡ same_variable one.now other.now }
{
    match (one, other) {
        (
            Variable::Instance { reference, field },
            Variable::Instance {
                reference: other_reference,
                field: other_field,
            },
        ) => reference == other_reference && same_key(field, other_field),
        (Variable::Static { field }, Variable::Static { field: other_field }) => {
            same_key(field, other_field)
        }
        (
            Variable::Element { reference, index },
            Variable::Element {
                reference: other_reference,
                index: other_index,
            },
        ) => reference == other_reference && index == other_index,
        _ => false,
    }
}

/// Returns whether two events are on one variable.
fn on_one_variable(one: &Item, other: &Item) -> bool
    ensures { result ≡ on_one_variable (variable_of one.now) (variable_of other.now) }
{
    match (variable_of(one), variable_of(other)) {
        (Some(one), Some(other)) => same_variable(one, other),
        _ => false,
    }
}

/// Returns whether two events conflict. They do if they belong to one thread or use one monitor. They do if they use
/// one variable and one of them writes it, or if one starts or joins the other's thread.
#[tactic(auto, unfolding(velodrome::specs::Conflicts::conflict))]
pub fn conflict(one: &Item, other: &Item) -> bool
    ensures { result ≡ conflict one.now other.now }
{
    thread_of(one) == thread_of(other)
        || same_number(monitor_of(one), monitor_of(other))
        || (on_one_variable(one, other) && (is_write(one) || is_write(other)))
        || same_number(started_or_joined(one), Some(thread_of(other)))
        || same_number(Some(thread_of(one)), started_or_joined(other))
}

/// Returns whether the events of two rows conflict.
pub(crate) fn are_conflicting(checker: &Checker, one: &Row, other: &Row) -> bool {
    match (item_at(checker, one.place), item_at(checker, other.place)) {
        (Some(one), Some(other)) => conflict(one, other),
        _ => false,
    }
}
