//! Decides which names words can spell.

ghost use Rattle.std.specs.Prelude.{◌≡◌, ◌≢◌, ◌<◌, [], length, true, false, not, ◌&&◌, ◌||◌, ◌==◌, IfSome, MatchOption};
ghost use Rattle.std.specs.List.{list_all, list_any};
ghost use Rattle.jasmin.specs.Lexing.{ends_word};
ghost use Rattle.listing_spec.specs.Printable.{is_paired, is_word_unit, is_word, is_before_descriptor};

use shared_data::surrogates::{is_high, is_low};

/// Returns the units after the first character, or `None` if it is half of a supplementary character.
#[tactic(auto, unfolding(listing_spec::specs::Printable::is_paired))]
fn behind_character(units: &[u16]) -> Option<&[u16]>
    requires { units.now ≢ [] }
    ensures exact { MatchOption result (is_paired units.now ≡ false)
        (λ behind. is_paired units.now ≡ is_paired behind.now) }
    ensures shorter { IfSome result (λ behind. length behind.now < length units.now) }
{
    match units {
        [high, low, behind @ ..] if is_high(*high) => {
            if is_low(*low) { Some(behind) } else { None }
        }
        [unit, behind @ ..] => {
            if is_high(*unit) || is_low(*unit) {
                None
            } else {
                Some(behind)
            }
        }
        [] => None,
    }
}

/// Decides whether each surrogate has its other half.
#[tactic(auto, using(crate::proofs::Halves::none_left))]
fn is_paired(units: &[u16]) -> bool
    ensures { result ≡ is_paired units.now }
{
    let mut rest = units;
    while !rest.is_empty() {
        match behind_character(rest) {
            Some(behind) => rest = behind,
            None => return false,
        }
    }
    true
}

/// Decides whether a word may contain a unit: it is no white space, quote, colon, equals sign or line end.
fn is_word_unit(unit: u16) -> bool
    ensures { result ≡ is_word_unit unit }
{
    !matches!(unit, 32 | 9 | 12 | 13 | 34 | 58 | 61 | 10)
}

/// Decides whether a word may contain all units of a name.
fn are_word_units(name: &[u16]) -> bool
    ensures { result ≡ list_all is_word_unit name.now }
{
    name.iter().all(|unit| is_word_unit(*unit))
}

/// Decides whether a name can be spelled as a word.
#[tactic(auto, unfolding(listing_spec::specs::Printable::is_word))]
pub(crate) fn is_word(name: &[u16]) -> bool
    ensures { result ≡ is_word name.now }
{
    are_word_units(name) && is_paired(name)
}

/// Decides whether a name has a parenthesis, at which a method's descriptor would begin.
fn has_parenthesis(name: &[u16]) -> bool
    ensures { result ≡ list_any (λ u. u == 40) name.now }
{
    name.iter().any(|unit| *unit == 40)
}

/// Decides whether a name can be spelled before a method's descriptor.
pub(crate) fn is_before_descriptor(name: &[u16]) -> bool
    ensures { result ≡ is_before_descriptor name.now }
{
    is_word(name) && !has_parenthesis(name)
}
