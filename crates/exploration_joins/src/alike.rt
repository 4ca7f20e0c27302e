//! Tests whether parts are of one exploration.

ghost use Rattle.std.specs.Prelude.{◌≡◌, All, Any, MatchBool, MatchOption, None, Some};
ghost use Rattle.exploration_joins.specs.Joins.{AreOfOne, AreOfSeveral, CoversNoOther, CoversOther, covered_words};

use crate::part::PartText;

/// Returns whether all are of this number of parts.
fn have_count(parts: &[PartText], count: u64) -> bool
    ensures { MatchBool result (All (λ part. part.part.count ≡ count) parts.now)
        (Any (λ part. part.part.count ≡ count → ⊥) parts.now) }
{
    for part in parts {
        if part.part.count != count {
            return false;
        }
    }
    true
}

/// Returns the words of the first part that found that all is covered.
pub(crate) fn first_covered(parts: &[PartText]) -> Option<&str>
    ensures { MatchOption result (All (λ part. covered_words part.found ≡ None) parts.now)
        (λ words. Any (λ part. covered_words part.found ≡ Some words.now) parts.now) }
{
    for part in parts {
        if let Some(words) = part.found.covered_words() {
            return Some(words);
        }
    }
    None
}

/// Returns whether a part found in other words that all is covered.
fn covers_other(part: &PartText, words: &str) -> bool
    ensures { MatchBool result (CoversOther words.now part.now) (CoversNoOther words.now part.now) }
{
    match part.found.covered_words() {
        Some(other) => other != words,
        None => false,
    }
}

/// Returns whether all that found that all is covered did so in these words.
fn have_words(parts: &[PartText], words: &str) -> bool
    ensures { MatchBool result (All (CoversNoOther words.now) parts.now)
        (Any (CoversOther words.now) parts.now) }
{
    for part in parts {
        if covers_other(part, words) {
            return false;
        }
    }
    true
}

/// Returns whether all parts are of one exploration.
pub(crate) fn are_of_one(parts: &[PartText]) -> bool
    ensures { MatchBool result (AreOfOne parts.now) (AreOfSeveral parts.now) }
{
    let Some(first) = parts.first() else {
        return true;
    };
    if !have_count(parts, first.part.count) {
        return false;
    }
    match first_covered(parts) {
        Some(words) => have_words(parts, words),
        None => true,
    }
}
