//! Writes the events of a trace in a serial order.

ghost use Rattle.std.specs.Prelude.{◌≡◌, ◌-◌, ◌++◌, IfOk, OnOk, map, slice_get};
ghost use Rattle.std.specs.List.{flat_map};
ghost use Rattle.std.specs.String.{string_bytes};
ghost use Rattle.report.specs.SerialTexts.{event_line, events_of, serial_text};

use crate::events::is_event;
use escapes::put_number;
use jvms_machine::trace::Item;
use std::alloc::{AllocError, Global};
use trace_text::put_line;

/// Returns the events of a trace, in order.
fn events_of<'i>(alloc: Global, items: &'i [Item]) -> Result<Vec<&'i Item>, AllocError>
    ensures { IfOk result (λ events. map (λ e. e.now) events.items ≡ events_of items.entry.now) }
{
    let mut events = Vec::new(alloc);
    for item in items {
        if is_event(item) {
            events.push(item)?;
        }
    }
    Ok(events)
}

/// Appends an event with its number to a text.
fn put_numbered(out: &mut String, number: u64, item: &Item) -> Result<(), AllocError>
    ensures { OnOk result
        (string_bytes out.new ≡ string_bytes out.old ++ event_line number (Some item.now)) }
{
    put_number(out, number)?;
    out.push_str(" ")?;
    put_line(out, item)?;
    Ok(())
}

/// Appends the line of event `number` to a text, or nothing if there is no such event.
fn put_event(out: &mut String, events: &[&Item], number: u64) -> Result<(), AllocError>
    ensures { OnOk result (string_bytes out.new ≡ string_bytes out.old
        ++ event_line number (slice_get (map (λ e. e.now) events.now) (number - 1))) }
{
    match events.get(number.saturating_sub(1) as usize) {
        Some(event) => put_numbered(out, number, *event),
        None => Ok(()),
    }
}

/// Returns the events of a trace in the order of these numbers, one a line: its number from 1, a space, and its line of
/// the trace.
pub fn serial_lines(alloc: Global, items: &[Item], numbers: &[u64]) -> Result<String, AllocError>
    ensures { IfOk result (λ s. string_bytes s ≡ serial_text items.now numbers.now) }
{
    let events = events_of(alloc, items)?;
    let mut lines = String::new(alloc);
    for number in numbers {
        put_event(&mut lines, events.as_slice(), *number)?;
    }
    Ok(lines)
}
