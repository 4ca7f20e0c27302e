//! Combines the judgements of words that are borrowed from the tokens.

ghost use Rattle.std.specs.Prelude.{◌≡◌};
ghost use Rattle.jasmin.specs.Lexing.{lexemes};
ghost use Rattle.jasmin.specs.Judgements.{both, map_ok, unless};
ghost use Rattle.jasmin.specs.Operands.{exactly};
ghost use Rattle.jasmin_instructions.specs.Views.{two_texts};

use jasmin::token::Token;
use jasmin_operands::{Judged, both, exactly, unless};

/// Returns the word, or the fault of the lesser number of both judgements.
pub fn word_unless(word: Judged<&[u16]>, other: Judged<()>) -> Judged<&[u16]>
    ensures { map_ok (λ w. w.now) result ≡ unless (map_ok (λ w. w.now) word.entry) other }
{
    unless(word, other)
}

/// Judges a word that has to be the only operand.
pub fn alone<'a>(word: Judged<&'a [u16]>, tokens: &[Token]) -> Judged<&'a [u16]>
    ensures { map_ok (λ w. w.now) result
        ≡ unless (map_ok (λ w. w.now) word.entry) (exactly 1 (lexemes tokens.now)) }
{
    word_unless(word, exactly(1, tokens))
}

/// Returns two words, or the fault of the lesser number.
pub fn two_words<'a>(
    first: Judged<&'a [u16]>,
    second: Judged<&'a [u16]>,
) -> Judged<(&'a [u16], &'a [u16])>
    ensures { map_ok two_texts result
        ≡ both (map_ok (λ w. w.now) first.entry) (map_ok (λ w. w.now) second.entry) }
{
    both(first, second)
}

/// Returns the two words, or the fault of the lesser number of both judgements.
#[tactic(auto, using(jasmin_operands::proofs::Judgements::said_unless))]
pub fn two_words_unless<'a>(
    words: Judged<(&'a [u16], &'a [u16])>,
    other: Judged<()>,
) -> Judged<(&'a [u16], &'a [u16])>
    ensures { map_ok two_texts result ≡ unless (map_ok two_texts words.entry) other }
{
    unless(words, other)
}
