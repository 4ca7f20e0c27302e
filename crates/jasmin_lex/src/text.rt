//! Texts between quotes.

ghost use Rattle.std.specs.Prelude.{◌≡◌, ◌<◌, length, IfOk, IfSome};
ghost use Rattle.std.specs.Option.{option_map};
ghost use Rattle.jasmin.specs.Lexing.{digit, four_digits, unit_of_escape, digits_from, escape_from, unit_from, units_from, text_from};
ghost use Rattle.jasmin_lex.specs.Lexed.{IsLexed};

use crate::fault::LexFault;
use crate::word::QUOTE;
use shared_data::items::Items;
use std::alloc::{AllocError, Global};

const BACKSLASH: u16 = 92;

const LOWER_U: u16 = 117;

/// Returns the value of a hexadecimal digit of either case.
fn digit_of(unit: u16) -> Option<u16>
    ensures digit { result ≡ digit unit }
    ensures few { IfSome result (λ d. d < 16) }
{
    if 48 <= unit && unit <= 57 {
        Some(unit - 48)
    } else if 97 <= unit && unit <= 102 {
        Some(unit - 87)
    } else if 65 <= unit && unit <= 70 {
        Some(unit - 55)
    } else {
        None
    }
}

/// Returns the unit of four hexadecimal digits.
fn four_digits(a: u16, b: u16, c: u16, d: u16) -> Option<u16>
    ensures { result ≡ four_digits a b c d }
{
    let first = digit_of(a)?;
    let second = first * 16 + digit_of(b)?;
    let third = second * 16 + digit_of(c)?;
    Some(third * 16 + digit_of(d)?)
}

/// Returns the unit that a letter after a backslash denotes.
fn letter(unit: u16) -> Option<u16>
    ensures { result ≡ unit_of_escape unit }
{
    if unit == 110 {
        Some(10)
    } else if unit == 114 {
        Some(13)
    } else if unit == 116 {
        Some(9)
    } else if unit == 98 {
        Some(8)
    } else if unit == 102 {
        Some(12)
    } else if unit == QUOTE || unit == 39 || unit == BACKSLASH {
        Some(unit)
    } else {
        None
    }
}

/// Reads four hexadecimal digits, which follow a `u`, and returns their unit and the rest.
fn digits_at(units: &[u16]) -> Option<(u16, &[u16])>
    ensures { option_map (λ x. (x.0, x.1.now)) result ≡ digits_from units.now }
{
    let [a, b, c, d, behind @ ..] = units else {
        return None;
    };
    Some((four_digits(*a, *b, *c, *d)?, behind))
}

/// Reads the rest of an escape after its backslash, a letter or a `u` and four digits. Returns its unit and the rest.
fn escape_at(units: &[u16]) -> Option<(u16, &[u16])>
    ensures { option_map (λ x. (x.0, x.1.now)) result ≡ escape_from units.now }
{
    let [unit, behind @ ..] = units else {
        return None;
    };
    if *unit == LOWER_U {
        return digits_at(behind);
    }
    Some((letter(*unit)?, behind))
}

/// Reads one unit of a text, and returns it and the rest. The closing quote is none.
#[tactic(auto, unfolding(jasmin::specs::Lexing::unit_from))]
fn unit_at(units: &[u16]) -> Option<(u16, &[u16])>
    ensures { option_map (λ x. (x.0, x.1.now)) result ≡ unit_from units.now }
{
    let [unit, behind @ ..] = units else {
        return None;
    };
    match *unit {
        QUOTE => None,
        BACKSLASH => escape_at(behind),
        _ => Some((*unit, behind)),
    }
}

/// Reads the units of a text up to its closing quote, a malformed escape or the line's end, and returns them and the
/// rest.
fn units_at(alloc: Global, units: &[u16]) -> Result<(Items<u16>, &[u16]), AllocError>
    ensures { IfOk result (λ x. (x.0, x.1.now) ≡ units_from (length units.now) units.now) }
{
    let mut text = Items::new(alloc);
    let mut rest = units;
    while let Some((unit, behind)) = unit_at(rest) {
        text.push(unit)?;
        rest = behind;
    }
    Ok((text, rest))
}

/// Reads a text after its opening quote, and returns it and the rest after its closing quote.
pub(crate) fn text_at(alloc: Global, units: &[u16]) -> Result<(Items<u16>, &[u16]), LexFault>
    ensures { IsLexed (λ x. (x.0, x.1.now)) result (text_from units.now) }
{
    let (text, rest) = units_at(alloc, units)?;
    let [QUOTE, behind @ ..] = rest else {
        return Err(LexFault::Lexeme);
    };
    Ok((text, behind))
}
