//! Lists in texts: values that are separated by commas.

ghost use Rattle.std.specs.Prelude.{ℕ, List, ◌≡◌, ◌++◌, ◌∷◌, [], IfOk, IfSome, IsErrOf, MatchOption};
ghost use Rattle.schedule.specs.Schedules.{AreRising, WritesDeparture, WritesList, WritesThread};
ghost use Rattle.schedule.specs.Lists.{ReadsNext};
ghost use Rattle.schedule.specs.Parts.{Lacks};
ghost use Rattle.schedule.specs.Listable.{departure_lacks_comma, front_rises, one_departure, one_thread, thread_lacks_comma};
ghost use Rattle.departures.specs.declared.departure.Departure.{Departure as DepartureOf};

use crate::fault::ScheduleFault;
use crate::numbers::{long_number, thread_number};
use departures::Departure;
use jvms_machine::machine::ThreadId;
use std::alloc::Global;

/// A value that a part of a text writes, in a list of such values.
pub(crate) trait Written: Copy {
    // The text writes the value.
    ghost writes: { List ℕ → Self → Type 0 };

    // The values may be listed in this order.
    ghost are_ordered: { List Self → Type 0 };

    /// Returns the value that a text writes, if it writes one that may be listed after the last value before it.
    fn read_after(last: Option<Self>, text: &str) -> Option<Self>
        ensures { ReadsNext writes are_ordered last text.now result };

    ghost lacks_comma: { (text : List ℕ) (value : Self) → writes text value → Lacks 44 text };

    ghost writes_one: { (text : List ℕ) (a b : Self) → writes text a → writes text b → a ≡ b };

    ghost begins_ordered: { are_ordered [] };

    ghost fewer_are_ordered: { (before after : List Self) → are_ordered (before ++ after) → are_ordered before };
}

impl Written for ThreadId {
    ghost writes = { WritesThread };

    ghost are_ordered = { λ _. Unit {0} };

    fn read_after(_last: Option<ThreadId>, text: &str) -> Option<ThreadId>
        ensures { ReadsNext WritesThread (λ _. Unit {0}) _last text.now result }
    {
        thread_number(text)
    }

    ghost lacks_comma = { thread_lacks_comma };

    ghost writes_one = { one_thread };

    ghost begins_ordered = { tt };

    ghost fewer_are_ordered = { λ _ _ _. tt };
}

/// Returns the departure that a text writes, if it writes one.
fn departure(text: &str) -> Option<Departure>
    ensures { MatchOption result ((d : DepartureOf) → ¬ (WritesDeparture text.now d))
        (WritesDeparture text.now) }
{
    let (position, thread) = text.split_once('=')?;
    Some(Departure {
        position: long_number(position)?,
        thread: thread_number(thread)?,
    })
}

impl Written for Departure {
    ghost writes = { WritesDeparture };

    ghost are_ordered = { AreRising };

    fn read_after(last: Option<Departure>, text: &str) -> Option<Departure>
        ensures { ReadsNext WritesDeparture AreRising last text.now result }
    {
        let departure = departure(text)?;
        match last {
            Some(last) if departure.position <= last.position => None,
            _ => Some(departure),
        }
    }

    ghost lacks_comma = { departure_lacks_comma };

    ghost writes_one = { one_departure };

    ghost begins_ordered = { tt };

    ghost fewer_are_ordered = { front_rises };
}

/// Appends a value to a list and returns it, or `None` if memory runs out or ran out before.
fn with_value<T: Written>(values: Option<Vec<T>>, value: T) -> Option<Vec<T>>
    ensures { IfSome result
        (λ after. MatchOption values ⊥ (λ before. after.items ≡ before.items ++ value ∷ [])) }
{
    let mut values = values?;
    values.push(value).ok()?;
    Some(values)
}

/// Returns the values that a text writes, separated by commas.
///
/// # Errors
///
/// `Syntax` if the text is no such list. `Memory` if it is one and memory runs out, so the whole text is read.
pub(crate) fn listed<T: Written>(alloc: Global, text: &str) -> Result<Vec<T>, ScheduleFault>
    ensures values { IfOk result
        (λ values. WritesList T.writes text.now values.items × T.are_ordered values.items) }
    ensures syntax { IsErrOf result ScheduleFault.Syntax → (values : List T)
        → ¬ (WritesList T.writes text.now values × T.are_ordered values) }
    ensures memory { IsErrOf result ScheduleFault.Memory
        → (values : List T) × WritesList T.writes text.now values × T.are_ordered values }
{
    if text.is_empty() {
        return Ok(Vec::new(alloc));
    }
    let mut values = Some(Vec::new(alloc));
    let mut last = None;
    let mut rest = text;
    while let Some((part, others)) = rest.split_once(',') {
        let Some(value) = T::read_after(last, part) else {
            return Err(ScheduleFault::Syntax);
        };
        values = with_value(values, value);
        last = Some(value);
        rest = others;
    }
    let Some(value) = T::read_after(last, rest) else {
        return Err(ScheduleFault::Syntax);
    };
    with_value(values, value).ok_or(ScheduleFault::Memory)
}
