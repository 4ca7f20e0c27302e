//! Splits texts at a byte.

ghost use Rattle.std.specs.Prelude.{◌≡◌, ◌==◌, ◌<◌, length, IfSome, position};
ghost use Rattle.std.specs.Option.{option_map};
ghost use Rattle.escapes.specs.Cuts.{IsCut, IsCutTwice, dots_in};

/// Returns the place of the first such byte.
fn place_of(text: &[u8], byte: u8) -> Option<usize>
    ensures { result ≡ position (λ b. b == byte) text.now }
{
    text.iter().position(|b| *b == byte)
}

/// Splits a text at the first such byte, and returns the parts before and after it. Returns `None` if there is none.
pub fn cut(text: &[u8], byte: u8) -> Option<(&[u8], &[u8])>
    ensures exact { IsCut byte text.now (option_map (λ x. (x.0.now, x.1.now)) result) }
    ensures shorter { IfSome result (λ x. length x.1.now < length text.now) }
{
    let place = place_of(text, byte)?;
    Some((&text[..place], &text[place + 1..]))
}

/// Splits a text at the first two such bytes, and returns the three parts. Returns `None` if there are fewer.
pub fn cut_twice(text: &[u8], byte: u8) -> Option<(&[u8], &[u8], &[u8])>
    ensures { IsCutTwice byte text.now (option_map (λ x. (x.0.now, x.1.now, x.2.now)) result) }
{
    let (first, behind) = cut(text, byte)?;
    let (second, third) = cut(behind, byte)?;
    Some((first, second, third))
}

/// Returns the number of dots in a text.
pub fn dots_in(text: &[u8]) -> usize
    ensures { result ≡ dots_in text.now }
{
    text.iter().filter(|byte| **byte == b'.').count()
}
