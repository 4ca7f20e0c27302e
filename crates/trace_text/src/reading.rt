//! Reads traces.

ghost use Rattle.trace_text.specs.Traces.{IsRead};

use crate::fault::TraceFault;
use crate::item::item_of;
use crate::line::cut_line;
use crate::members::Keys;
use std::alloc::Global;
use trace::Trace;

/// Reads a trace: one item a line, each line ended by LF.
///
/// # Errors
///
/// X01 with the number of the first line, from 1, that is no item or has no LF. X02 if memory ran out.
pub fn read(alloc: Global, text: &str) -> Result<Trace, TraceFault>
    // The result is the trace of the text, or its first faulty line, unless memory runs out.
    ensures { IsRead text.now result }
{
    let mut trace = Trace::new(alloc);
    let mut keys = Keys::new(alloc)?;
    let mut line = 0;
    let mut rest = text.as_bytes();
    while !rest.is_empty() {
        line += 1;
        let Some((first, behind)) = cut_line(rest) else {
            return Err(TraceFault::Syntax { line });
        };
        let Some(item) = item_of(&mut keys, first)? else {
            return Err(TraceFault::Syntax { line });
        };
        trace.push(item)?;
        rest = behind;
    }
    Ok(trace)
}
