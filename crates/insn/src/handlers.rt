//! Exception handlers (JVMS 4.7.3).

ghost use Rattle.std.specs.Prelude.{◌≡◌};
ghost use Rattle.jvms_file.specs.Code.{end_place_of, handler_places};

use crate::starts::Starts;
use jvms_file::class_file::Handler;

/// Returns the place of a range's end: that of an instruction, or the place after the last.
fn end_place_of(starts: &Starts, code_length: usize, pc: u32) -> Option<u32>
    ensures { result ≡ end_place_of starts.now code_length pc }
{
    if pc as usize == code_length {
        Some(starts.count())
    } else {
        starts.place_of(pc)
    }
}

/// Returns a handler with places for the bytes of its bounds and its target. Returns `None` if the range is empty, or
/// if no instruction starts at its start or at its target. Its end has to be the start of an instruction or the end of
/// the code, else the result is `None` too.
pub fn handler(starts: &Starts, code_length: usize, h: Handler) -> Option<Handler>
    ensures { result ≡ handler_places starts.now code_length h }
{
    if h.start >= h.end {
        return None;
    }
    let start = starts.place_of(h.start)?;
    let end = end_place_of(starts, code_length, h.end)?;
    let target = starts.place_of(h.target)?;
    Some(Handler {
        start,
        end,
        target,
        catch_type: h.catch_type,
    })
}
