//! Writes items and traces.

ghost use Rattle.std.specs.Prelude.{◌≡◌, ◌++◌, OnOk, OnErr, IfOk};
ghost use Rattle.std.specs.Io.{StartsWith};
ghost use Rattle.std.specs.String.{string_bytes};
ghost use Rattle.trace_text.specs.Traces.{item_line, trace_text};

use crate::item::put_item;
use jvms_machine::trace::Item;
use std::alloc::{AllocError, Global};
use trace::Trace;

/// Appends an item and LF. On an error a part of them may have been appended.
fn put_parts(out: &mut String, item: &Item) -> Result<(), AllocError>
    ensures exact { OnOk result
        (string_bytes out.new ≡ string_bytes out.old ++ item_line item.now) }
    ensures appended { OnErr result (StartsWith (string_bytes out.new) (string_bytes out.old)) }
{
    put_item(out, item)?;
    out.push_str("\n")
}

/// Appends the line of an item, with its LF, to a text.
pub fn put_line(out: &mut String, item: &Item) -> Result<(), AllocError>
    ensures exact { OnOk result
        (string_bytes out.new ≡ string_bytes out.old ++ item_line item.now) }
    // Without memory nothing changes.
    ensures kept { OnErr result (string_bytes out.new ≡ string_bytes out.old) }
{
    let before = out.len();
    if let Err(error) = put_parts(out, item) {
        out.truncate(before);
        return Err(error);
    }
    Ok(())
}

/// Returns the text of items: one a line, each ended by LF. Fails if memory runs out.
pub fn write_items(alloc: Global, items: &[Item]) -> Result<String, AllocError>
    ensures { IfOk result (λ text. string_bytes text ≡ trace_text items.now) }
{
    let mut text = String::new(alloc);
    for item in items {
        put_line(&mut text, item)?;
    }
    Ok(text)
}

/// Returns the text of a trace: one item a line, each ended by LF. Fails if memory runs out.
pub fn write(alloc: Global, trace: &Trace) -> Result<String, AllocError>
    ensures { IfOk result (λ text. string_bytes text ≡ trace_text trace.now) }
{
    write_items(alloc, trace.items())
}
