//! Reads the numbers and versions that words spell.

ghost use Rattle.std.specs.Prelude.{◌≡◌, ◌≤◌, ◌==◌, ◌+◌, ◌*◌, length, drop, is_some, pos, neg_ℤ};
ghost use Rattle.std.specs.List.{list_all, position_or_len};
ghost use Rattle.std.specs.Option.{option_and_then};
ghost use Rattle.jasmin.specs.Lexing.{digit};
ghost use Rattle.jasmin.specs.Numerals.{digit_below, digits_after, natural, number_of, is_from_to, is_version};
ghost use Rattle.jasmin_operands.specs.Numbers.{unsigned_64_bits, signed_64_bits};

use crate::letters::{DOT, LOWER_A, LOWER_F, LOWER_X, MINUS, NINE, PLUS, UPPER_A, UPPER_F, ZERO};

const DECIMAL: u64 = 10;

const HEXADECIMAL: u64 = 16;

/// Returns the value of a hexadecimal digit of either case.
fn digit(unit: u16) -> Option<u64>
    ensures { result ≡ digit unit }
{
    match unit {
        ZERO..=NINE => Some(u64::from(unit - ZERO)),
        LOWER_A..=LOWER_F => Some(u64::from(unit - LOWER_A) + 10),
        UPPER_A..=UPPER_F => Some(u64::from(unit - UPPER_A) + 10),
        _ => None,
    }
}

/// Returns the value of a digit that is below the radix.
fn digit_below(radix: u64, unit: u16) -> Option<u64>
    ensures { result ≡ digit_below radix unit }
{
    let value = digit(unit)?;
    if value < radix { Some(value) } else { None }
}

/// Returns the number whose digits are those of `number` and this one, if it fits 64 bits.
fn with_digit(radix: u64, number: u64, unit: u16) -> Option<u64>
    ensures { result
        ≡ option_and_then (λ d. unsigned_64_bits (number * radix + d)) (digit_below radix unit) }
{
    let digit = digit_below(radix, unit)?;
    number.checked_mul(radix)?.checked_add(digit)
}

/// Returns the number that digits spell, if it fits 64 bits.
#[tactic(auto, using(crate::proofs::Digits::stops, crate::proofs::Digits::no_more))]
fn digits(radix: u64, units: &[u16]) -> Option<u64>
    ensures { result ≡ option_and_then unsigned_64_bits (digits_after radix 0 units.now) }
{
    let mut number = 0;
    let mut rest = units;
    while let [unit, behind @ ..] = rest {
        number = with_digit(radix, number, *unit)?;
        rest = behind;
    }
    Some(number)
}

/// Returns the number that digits spell, if there is at least one and the number fits 64 bits.
#[tactic(auto, using(crate::proofs::Digits::some_natural, crate::proofs::Digits::no_natural))]
fn natural(radix: u64, units: &[u16]) -> Option<u64>
    ensures { result ≡ option_and_then unsigned_64_bits (natural radix units.now) }
{
    if units.is_empty() {
        None
    } else {
        digits(radix, units)
    }
}

/// Returns the number as a signed one, if it fits 64 bits.
fn positive(number: u64) -> Option<i64>
    ensures { result ≡ signed_64_bits (pos number) }
{
    if number <= i64::MAX as u64 {
        Some(number as i64)
    } else {
        None
    }
}

/// Returns the negated number, if it fits 64 bits.
fn negative(number: u64) -> Option<i64>
    ensures { result ≡ signed_64_bits (neg_ℤ (pos number)) }
{
    if number <= 1 << 63 {
        Some(-i128::from(number) as i64)
    } else {
        None
    }
}

/// Returns the number that a word spells, if it spells one that fits 64 bits.
#[tactic(auto, unfolding(jasmin::specs::Numerals::number_of))]
pub fn number_of(word: &[u16]) -> Option<i64>
    ensures { result ≡ option_and_then signed_64_bits (number_of word.now) }
{
    match word {
        [ZERO, LOWER_X, digits @ ..] => positive(natural(HEXADECIMAL, digits)?),
        [MINUS, digits @ ..] => negative(natural(DECIMAL, digits)?),
        [PLUS, digits @ ..] => positive(natural(DECIMAL, digits)?),
        _ => positive(natural(DECIMAL, word)?),
    }
}

/// Decides whether all units are digits.
fn are_digits(radix: u64, units: &[u16]) -> bool
    ensures { result ≡ list_all (λ u. is_some (digit_below radix u)) units.now }
{
    units.iter().all(|unit| digit_below(radix, *unit).is_some())
}

/// Decides whether all units are digits, and there is at least one.
#[tactic(auto, using(crate::proofs::Digits::natural_digits, crate::proofs::Digits::no_natural))]
fn is_natural(radix: u64, units: &[u16]) -> bool
    ensures { result ≡ is_some (natural radix units.now) }
{
    !units.is_empty() && are_digits(radix, units)
}

/// Decides whether a word spells a number of any size.
#[tactic(auto, unfolding(jasmin::specs::Numerals::number_of))]
pub fn spells_number(word: &[u16]) -> bool
    ensures { result ≡ is_some (number_of word.now) }
{
    match word {
        [ZERO, LOWER_X, digits @ ..] => is_natural(HEXADECIMAL, digits),
        [MINUS, digits @ ..] => is_natural(DECIMAL, digits),
        [PLUS, digits @ ..] => is_natural(DECIMAL, digits),
        _ => is_natural(DECIMAL, word),
    }
}

/// Decides whether decimal digits spell a number within the bounds.
fn is_from_to(least: u64, most: u64, units: &[u16]) -> bool
    ensures { result ≡ is_from_to least most (natural 10 units.now) }
{
    match natural(DECIMAL, units) {
        Some(number) => least <= number && number <= most,
        None => false,
    }
}

/// Returns the number of units before the first dot, or of all units if there is none.
fn before_dot(word: &[u16]) -> usize
    ensures exact { result ≡ position_or_len (λ u. u == 46) word.now }
    ensures within { result ≤ length word.now }
{
    word.iter().take_while(|unit| **unit != DOT).count()
}

/// Returns the units after a place.
fn after(word: &[u16], place: usize) -> &[u16]
    ensures { result.now ≡ drop (place + 1) word.now }
{
    if place < word.len() {
        &word[place + 1..]
    } else {
        &[]
    }
}

/// Decides whether a word spells a version: a decimal number from 45 to 50, a dot, and one from 0 to 65535.
pub fn is_version(word: &[u16]) -> bool
    ensures { result ≡ is_version word.now }
{
    let dot = before_dot(word);
    is_from_to(45, 50, &word[..dot]) && is_from_to(0, 65535, after(word, dot))
}
