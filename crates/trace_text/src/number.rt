//! Reads numbers in decimal, without leading zeros.

ghost use Rattle.std.specs.Prelude.{◌≡◌, ◌≢◌, ℕ, ◌+◌, ◌<◌, MatchOption};
ghost use Rattle.std.specs.Fmt.{decimal};
ghost use Rattle.escapes.specs.Readings.{IsReadAs};
ghost use Rattle.trace_text.specs.Items.{IsNumber};

const MOST: u64 = u32::MAX as u64;

/// Returns the value of a decimal digit, or `None` for another byte.
fn digit_of(byte: u8) -> Option<u64>
    ensures { MatchOption result ((d : ℕ) → d < 10 → byte ≢ 48 + d)
        (λ d. (d < 10) × (byte ≡ 48 + d)) }
{
    match byte {
        b'0'..=b'9' => Some(u64::from(byte - b'0')),
        _ => None,
    }
}

/// Reads a number below 4,294,967,296. Returns `None` if the text is none. A number has exactly one spelling.
pub(crate) fn number_of(text: &[u8]) -> Option<u32>
    ensures { IsReadAs IsNumber decimal text.now result }
{
    let (first, behind) = text.split_first()?;
    let mut number = digit_of(*first)?;
    for byte in behind {
        let digit = digit_of(*byte)?;
        if number == 0 || number > MOST {
            return None;
        }
        number = number * 10 + digit;
    }
    if number > MOST {
        None
    } else {
        Some(number as u32)
    }
}
