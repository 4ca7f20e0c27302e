//! Reads words.

ghost use Rattle.std.specs.Prelude.{◌≡◌, position};
ghost use Rattle.jasmin.specs.Lexing.{ends_word, word_from};

use crate::space::is_space;

pub(crate) const QUOTE: u16 = 34;

pub(crate) const COLON: u16 = 58;

pub(crate) const EQUALS: u16 = 61;

/// Decides whether no word contains a unit.
fn ends_word(unit: u16) -> bool
    ensures { result ≡ ends_word unit }
{
    is_space(unit) || unit == QUOTE || unit == COLON || unit == EQUALS
}

/// Returns the place of the first unit after the word at the front, if there is one.
fn end_in(units: &[u16]) -> Option<usize>
    ensures { result ≡ position ends_word units.now }
{
    units.iter().position(|unit| ends_word(*unit))
}

/// Returns the word at the front, and the rest.
#[tactic(auto, using(crate::proofs::Words::word_ends, crate::proofs::Words::word_goes_on))]
pub(crate) fn word_at(units: &[u16]) -> (&[u16], &[u16])
    ensures { (result.0.now, result.1.now) ≡ word_from units.now }
{
    match end_in(units) {
        Some(end) => units.split_at(end),
        None => (units, &[]),
    }
}
