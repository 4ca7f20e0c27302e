//! Decodes a text from its bytes.

ghost use Rattle.std.specs.Prelude.{◌≡◌, ◌≤◌, ◌<◌, ℕ, List, Ok, option_map, IfOk, IfErr};
ghost use Rattle.jvms_file.specs.Texts.{Codes, is_continuation, after_lead_of_two, after_lead_of_three, unit_at, text_of_bytes};
ghost use Rattle.mutf8.specs.Reading.{Gives, Places};

use crate::Units;
use crate::fault::Fault;
use std::alloc::Global;

/// Decides whether a byte may follow the first byte of a unit.
fn is_continuation(byte: u8) -> bool
    ensures { result ≡ is_continuation byte }
{
    0x80 <= byte && byte < 0xc0
}

/// Decodes a unit of two bytes from its first byte and the bytes that follow, and returns it with the bytes after it.
fn unit_of_two(lead: u8, rest: &[u8]) -> Option<(u16, &[u8])>
    requires from { 0xc0 ≤ lead }
    requires below { lead < 0xe0 }
    ensures { option_map (λ x. (x.0, x.1.now)) result ≡ after_lead_of_two lead rest.now }
{
    let [second, behind @ ..] = rest else {
        return None;
    };
    if !is_continuation(*second) {
        return None;
    }
    let unit = u16::from(lead - 0xc0) * 0x40 + u16::from(*second - 0x80);
    if unit == 0 || unit >= 0x80 {
        Some((unit, behind))
    } else {
        None
    }
}

/// Decodes a unit of three bytes from its first byte and the bytes that follow, and returns it with the bytes after it.
fn unit_of_three(lead: u8, rest: &[u8]) -> Option<(u16, &[u8])>
    requires from { 0xe0 ≤ lead }
    requires below { lead < 0xf0 }
    ensures { option_map (λ x. (x.0, x.1.now)) result ≡ after_lead_of_three lead rest.now }
{
    let [second, third, behind @ ..] = rest else {
        return None;
    };
    if !is_continuation(*second) || !is_continuation(*third) {
        return None;
    }
    let high = u16::from(lead - 0xe0) * 0x40 + u16::from(*second - 0x80);
    let unit = high * 0x40 + u16::from(*third - 0x80);
    if unit >= 0x800 {
        Some((unit, behind))
    } else {
        None
    }
}

/// Decodes the unit at the front of the bytes and returns it with the bytes after it.
#[tactic(auto, unfolding(jvms_file::specs::Texts::unit_at))]
fn front_unit(bytes: &[u8]) -> Option<(u16, &[u8])>
    ensures { option_map (λ x. (x.0, x.1.now)) result ≡ unit_at bytes.now }
{
    let [lead, rest @ ..] = bytes else {
        return None;
    };
    match *lead {
        0x01..=0x7f => Some((u16::from(*lead), rest)),
        0xc0..=0xdf => unit_of_two(*lead, rest),
        0xe0..=0xef => unit_of_three(*lead, rest),
        _ => None,
    }
}

/// Decodes units up to the end of the bytes, or up to the first byte at which none begins.
fn all_units(alloc: Global, bytes: &[u8]) -> Result<Units, Fault>
    ensures { Gives result (text_of_bytes bytes.now) }
{
    let mut units = Units::new(alloc);
    let mut rest = bytes;
    while !rest.is_empty() {
        let Some((unit, behind)) = front_unit(rest) else {
            return Err(Fault::BadUtf8 {
                at: bytes.len() - rest.len(),
            });
        };
        units.push(unit)?;
        rest = behind;
    }
    Ok(units)
}

/// Decodes a text from its bytes, or reports the first byte at which no unit begins.
pub fn decode(alloc: Global, bytes: &[u8]) -> Result<Units, Fault>
    // The text, or the first place where the bytes are wrong.
    ensures exact { Gives result (text_of_bytes bytes.now) }
    // A text that is returned is spelled by the bytes.
    ensures found { IfOk result (λ us. Codes bytes.now us) }
    // A text that the bytes spell is returned, unless memory runs out.
    ensures only { (us : List ℕ) → Codes bytes.now us → Gives result (Ok us) }
    // A fault is at a place where a text ends and no unit begins.
    ensures bad { IfErr result (λ fault. Places bytes.now fault) }
{
    all_units(alloc, bytes)
}
