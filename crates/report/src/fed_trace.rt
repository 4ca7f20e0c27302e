//! A trace to be explained.

ghost use Rattle.std.specs.Prelude.{◌≡◌, ◌-◌, ◌++◌, IfOk, OnOk, Some, codes, map, option_copied, slice_get};
ghost use Rattle.std.specs.Fmt.{decimal};
ghost use Rattle.std.specs.Option.{option_map};
ghost use Rattle.std.specs.String.{string_bytes};
ghost use Rattle.jvms_machine.specs.Events.{thread_of};
ghost use Rattle.report.specs.CycleTexts.{actor_at, actor_text, event_line, event_name, events_of_transaction, in_method_text, item_at, item_part, open_methods, naming_method, place_of_event, transactions_of, turn_text};

use crate::actor::naming_method;
use crate::events::{event_places, events_of_transaction};
use accesses::thread_of;
use atom_graph::Checker;
use escapes::{put_counted, put_method, put_number};
use jvms_machine::trace::Item;
use jvms_program::key::MethodKey;
use std::alloc::{AllocError, Global};
use std::marker::Model;
use trace_text::put_line;

/// A trace that a checker was fed, and the turns of its events. Contracts see the specification, the items and the
/// turns.
#[derive(Drop)]
pub(crate) struct FedTrace<'a> {
    checker: &'a Checker,
    /// The places of the events among the items.
    places: Vec<usize>,
    /// The turn of each event. It is empty if they are unknown.
    turns: &'a [u64],
}

impl<'a> Model for FedTrace<'a> {
    ghost use Rattle.std.specs.Prelude.{◌≡◌};
    ghost use Rattle.report.specs.CycleTexts.{Explained, event_places};

    ghost Value = { Explained };

    ghost view = { λ t. record {
      lines = t.checker.now.lines;
      items = t.checker.now.items;
      turns = t.turns.now;
    } };

    ghost invariant = { λ t. t.places.items ≡ event_places t.checker.now.items };
}

/// Appends the turn of an event, if it is known.
fn put_turn(out: &mut String, turn: Option<u64>) -> Result<(), AllocError>
    ensures { OnOk result (string_bytes out.new ≡ string_bytes out.old ++ turn_text turn) }
{
    match turn {
        Some(turn) => put_counted(out, " at turn ", turn),
        None => Ok(()),
    }
}

/// Appends the method that names a transaction, if there is one.
fn put_in_method(out: &mut String, method: Option<&MethodKey>) -> Result<(), AllocError>
    ensures { OnOk result (string_bytes out.new
        ≡ string_bytes out.old ++ in_method_text (option_map (λ m. m.now) method.entry)) }
{
    match method {
        Some(method) => {
            out.push_str(" in ")?;
            put_method(out, method)
        }
        None => Ok(()),
    }
}

/// Appends an item's line, or the end of the line if there is no item.
fn put_item_part(out: &mut String, item: Option<&Item>) -> Result<(), AllocError>
    ensures { OnOk result
        (string_bytes out.new ≡ string_bytes out.old ++ item_part (option_copied item.entry)) }
{
    match item {
        Some(item) => {
            out.push_str(": ")?;
            put_line(out, item)
        }
        None => out.push_str("\n"),
    }
}

impl<'a> FedTrace<'a> {
    /// Finds the events of the items that a checker was fed.
    pub(crate) fn new(
        alloc: Global,
        checker: &'a Checker,
        turns: &'a [u64],
    ) -> Result<Self, AllocError>
        ensures { IfOk result (λ t. t
            ≡ record { lines = checker.now.lines; items = checker.now.items; turns = turns.now }) }
    {
        Ok(FedTrace {
            checker,
            places: event_places(alloc, checker.items())?,
            turns,
        })
    }

    /// Returns the numbers of a transaction's events.
    pub(crate) fn numbers_of(&self, alloc: Global, transaction: u64) -> Result<Vec<u64>, AllocError>
        ensures { IfOk result (λ numbers. numbers.items
            ≡ events_of_transaction transaction (transactions_of self.now)) }
    {
        events_of_transaction(alloc, transaction, self.checker.transactions())
    }

    /// Returns the place of event `number`.
    fn place_of_event(&self, number: u64) -> Option<usize>
        ensures { result ≡ place_of_event self.now.items number }
    {
        let index = number.saturating_sub(1) as usize;
        self.places.as_slice().get(index).copied()
    }

    /// Returns the item at a place.
    fn item(&self, place: usize) -> Option<&Item>
        ensures { option_copied result ≡ slice_get self.now.items place }
    {
        match self.checker.items().get(place) {
            Some(item) => Some(item.get()),
            None => None,
        }
    }

    /// Returns event `number`.
    fn event(&self, number: u64) -> Option<&Item>
        ensures { option_copied result
            ≡ item_at self.now.items (place_of_event self.now.items number) }
    {
        match self.place_of_event(number) {
            Some(place) => self.item(place),
            None => None,
        }
    }

    /// Returns the turn of event `number`, if it is known.
    fn turn_of(&self, number: u64) -> Option<u64>
        ensures { result ≡ slice_get self.now.turns (number - 1) }
    {
        let index = number.saturating_sub(1) as usize;
        self.turns.get(index).copied()
    }

    /// Appends `event N` with its turn.
    pub(crate) fn put_event_name(&self, out: &mut String, number: u64) -> Result<(), AllocError>
        ensures { OnOk result
            (string_bytes out.new ≡ string_bytes out.old ++ event_name self.now.turns number) }
    {
        put_counted(out, "event ", number)?;
        put_turn(out, self.turn_of(number))?;
        Ok(())
    }

    /// Appends the line of an event.
    pub(crate) fn put_event_line(&self, out: &mut String, number: u64) -> Result<(), AllocError>
        ensures { OnOk result
            (string_bytes out.new ≡ string_bytes out.old ++ event_line self.now number) }
    {
        out.push_str("  ")?;
        self.put_event_name(out, number)?;
        put_item_part(out, self.event(number))
    }

    /// Appends the thread of the item at a place, and the method that names its transaction.
    fn put_actor(&self, alloc: Global, out: &mut String, place: usize) -> Result<(), AllocError>
        ensures { OnOk result (string_bytes out.new
            ≡ string_bytes out.old ++ actor_text self.now place (slice_get self.now.items place)) }
    {
        let Some(item) = self.item(place) else {
            return Ok(());
        };
        let thread = thread_of(item);
        put_counted(out, ": thread ", u64::from(thread))?;
        put_in_method(out, naming_method(alloc, self.checker, place, thread)?)
    }

    /// Appends the thread of event `number`, and the method that names its transaction.
    pub(crate) fn put_actor_of(
        &self,
        alloc: Global,
        out: &mut String,
        number: u64,
    ) -> Result<(), AllocError>
        ensures { OnOk result (string_bytes out.new
            ≡ string_bytes out.old ++ actor_at self.now (place_of_event self.now.items number)) }
    {
        match self.place_of_event(number) {
            Some(place) => self.put_actor(alloc, out, place),
            None => Ok(()),
        }
    }
}
