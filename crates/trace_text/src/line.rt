//! Splits a text into lines.

ghost use Rattle.std.specs.Prelude.{◌≡◌, ◌<◌, length, IfSome};
ghost use Rattle.std.specs.Option.{option_map};
ghost use Rattle.escapes.specs.Cuts.{IsCut};

use memchr::memchr;

/// What ends a line.
const LINE_FEED: u8 = b'\n';

/// Splits a text at the first LF, and returns the parts before and after it. Returns `None` if there is none.
pub(crate) fn cut_line(text: &[u8]) -> Option<(&[u8], &[u8])>
    ensures exact { IsCut 10 text.now (option_map (λ x. (x.0.now, x.1.now)) result) }
    ensures shorter { IfSome result (λ x. length x.1.now < length text.now) }
{
    let place = memchr(LINE_FEED, text)?;
    Some((&text[..place], &text[place + 1..]))
}
