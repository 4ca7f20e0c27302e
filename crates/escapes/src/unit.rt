//! Writes and parses one code unit of a name.

ghost use Rattle.std.specs.Prelude.{◌≡◌, ◌≢◌, ℕ, ◌<◌, ◌++◌, ◌∷◌, [], length, OnOk, OnErr, IfSome, MatchOption};
ghost use Rattle.std.specs.List.{AllByRecursion};
ghost use Rattle.std.specs.Option.{option_map};
ghost use Rattle.std.specs.String.{string_bytes};
ghost use Rattle.escapes.specs.Escapes.{is_plain, hexadecimal, four_digits, unit_text};
ghost use Rattle.escapes.specs.Readings.{IsReadAs, IsUnit, IsUnitAt};

use std::alloc::AllocError;

const BACKSLASH: u8 = b'\\';

/// Decides whether a unit is written as itself.
fn is_plain(unit: u16) -> bool
    ensures { result ≡ is_plain unit }
{
    33 <= unit && unit <= 126 && unit != 92
}

/// Returns a hexadecimal digit, in lower case.
fn hexadecimal(digit: u16) -> u8
    requires { digit < 16 }
    ensures exact { result ≡ hexadecimal digit }
    ensures ascii { result < 128 }
{
    if digit < 10 {
        48 + digit as u8
    } else {
        87 + digit as u8
    }
}

/// Appends an ASCII character.
fn put_ascii(out: &mut String, byte: u8) -> Result<(), AllocError>
    requires { byte < 128 }
    ensures exact { OnOk result (string_bytes out.new ≡ string_bytes out.old ++ byte ∷ []) }
    ensures kept { OnErr result (string_bytes out.new ≡ string_bytes out.old) }
{
    out.push(char::from(byte))
}

/// Appends ASCII characters. Without memory nothing changes.
fn put_all(out: &mut String, bytes: &[u8]) -> Result<(), AllocError>
    requires { AllByRecursion (λ b. b < 128) bytes.now }
    ensures exact { OnOk result (string_bytes out.new ≡ string_bytes out.old ++ bytes.now) }
    ensures kept { OnErr result (string_bytes out.new ≡ string_bytes out.old) }
{
    let before = out.len();
    for byte in bytes {
        if let Err(error) = put_ascii(out, *byte) {
            out.truncate(before);
            return Err(error);
        }
    }
    Ok(())
}

/// Appends a unit: itself, or `\u` with its four digits.
pub(crate) fn put_unit(out: &mut String, unit: u16) -> Result<(), AllocError>
    ensures exact { OnOk result (string_bytes out.new ≡ string_bytes out.old ++ unit_text unit) }
    ensures kept { OnErr result (string_bytes out.new ≡ string_bytes out.old) }
{
    if is_plain(unit) {
        return put_ascii(out, unit as u8);
    }
    let first = hexadecimal(unit / 4096);
    let second = hexadecimal(unit / 256 % 16);
    let third = hexadecimal(unit / 16 % 16);
    let fourth = hexadecimal(unit % 16);
    put_all(out, &[BACKSLASH, b'u', first, second, third, fourth])
}

/// Returns the value of a hexadecimal digit in lower case.
fn digit_of(byte: u8) -> Option<u16>
    ensures { MatchOption result ((d : ℕ) → d < 16 → byte ≢ hexadecimal d)
        (λ d. (d < 16) × (byte ≡ hexadecimal d)) }
{
    match byte {
        b'0'..=b'9' => Some(u16::from(byte - b'0')),
        b'a'..=b'f' => Some(u16::from(byte - b'a') + 10),
        _ => None,
    }
}

/// Parses the unit of four hexadecimal digits.
fn numbered(first: u8, second: u8, third: u8, fourth: u8) -> Option<u16>
    ensures { IsReadAs IsUnit four_digits (first ∷ second ∷ third ∷ fourth ∷ []) result }
{
    let first = digit_of(first)?;
    let second = digit_of(second)?;
    let third = digit_of(third)?;
    let fourth = digit_of(fourth)?;
    Some(first * 4096 + second * 256 + third * 16 + fourth)
}

/// Parses the unit at the front of a text, and returns it with the text after it.
pub(crate) fn unit_at(text: &[u8]) -> Option<(u16, &[u8])>
    ensures exact { IsUnitAt text.now (option_map (λ x. (x.0, x.1.now)) result) }
    ensures shorter { IfSome result (λ x. length x.1.now < length text.now) }
{
    match text {
        [BACKSLASH, b'u', first, second, third, fourth, behind @ ..] => {
            let unit = numbered(*first, *second, *third, *fourth)?;
            if is_plain(unit) {
                None
            } else {
                Some((unit, behind))
            }
        }
        [byte, behind @ ..] if is_plain(u16::from(*byte)) => Some((u16::from(*byte), behind)),
        _ => None,
    }
}
