//! Converts UTF-16 code units to characters, and to their bytes in UTF-8.

ghost use Rattle.std.specs.Prelude.{◌≡◌, ◌+◌, ◌-◌, ◌*◌, ◌<◌, ◌≤◌, ◌∷◌, ◌++◌, [], length, take, IsOk, OnOk, OnErr, IsTrue, if◌then◌else◌, encode_utf8};
ghost use Rattle.shared_data.specs.Surrogates.{is_high, is_low};
ghost use Rattle.jvms_machine.specs.Output.{characters, text_bytes};

use shared_data::surrogates::{is_high, is_low};
use std::alloc::AllocError;

/// Returns the supplementary character of a surrogate pair.
fn joined(high: u16, low: u16) -> char
    requires high { IsTrue (is_high high) }
    requires low { IsTrue (is_low low) }
    ensures { result ≡ 0x10000 + (high - 0xd800) * 0x400 + (low - 0xdc00) }
{
    let code = 0x10000 + u32::from(high - 0xd800) * 0x400 + u32::from(low - 0xdc00);
    char::from_u32(code).unwrap()
}

/// Returns the character of a unit that is in no surrogate pair. A lone surrogate gives a question mark.
fn alone(unit: u16) -> char
    ensures { result ≡ (if is_high unit then 63 else (if is_low unit then 63 else unit)) }
{
    char::from_u32(u32::from(unit)).unwrap_or('?')
}

/// Returns the first character of a text of these units, with the units after it.
fn front_character(first: u16, rest: &[u16]) -> (char, &[u16])
    ensures front { characters (first ∷ rest.now) ≡ result.0 ∷ characters result.1.now }
    ensures not_longer { length result.1.now ≤ length rest.now }
{
    match rest {
        [second, behind @ ..] if is_high(first) && is_low(*second) => {
            (joined(first, *second), behind)
        }
        _ => (alone(first), rest),
    }
}

/// Appends a character's bytes.
fn put_character(out: &mut Vec<u8>, character: char) -> Result<(), AllocError>
    ensures ok { OnOk result (out.new.items ≡ out.old.items ++ encode_utf8 character) }
    ensures err { OnErr result (out.new.items ≡ out.old.items) }
    ensures none { encode_utf8 character ≡ [] → IsOk result }
{
    let mut buffer = [0; 4];
    out.extend_from_slice(character.encode_utf8(&mut buffer).as_bytes())
}

/// Appends a text's bytes, up to the first character for which memory runs out.
fn put_characters(out: &mut Vec<u8>, units: &[u16]) -> Result<(), AllocError>
    ensures ok { OnOk result (out.new.items ≡ out.old.items ++ text_bytes units.now) }
    ensures front { take (length out.old.items) out.new.items ≡ out.old.items }
    ensures none { text_bytes units.now ≡ [] → IsOk result }
{
    let mut rest = units;
    while let [first, behind @ ..] = rest {
        let (character, after) = front_character(*first, behind);
        put_character(out, character)?;
        rest = after;
    }
    Ok(())
}

/// Appends a text in UTF-8. Without memory for it nothing changes.
pub fn put_text(out: &mut Vec<u8>, units: &[u16]) -> Result<(), AllocError>
    ensures ok { OnOk result (out.new.items ≡ out.old.items ++ text_bytes units.now) }
    ensures err { OnErr result (out.new.items ≡ out.old.items) }
    // A text without bytes doesn't fail.
    ensures none { text_bytes units.now ≡ [] → IsOk result }
{
    let before = out.len();
    let put = put_characters(out, units);
    if put.is_err() {
        out.truncate(before);
    }
    put
}
