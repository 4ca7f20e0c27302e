//! Access words and their flags (JVMS tables 4.1-A, 4.5-A, 4.6-A).

ghost use Rattle.std.specs.Prelude.{◌≡◌, ◌∷◌, [], map};
ghost use Rattle.jasmin.specs.Lexing.{lexemes};
ghost use Rattle.jasmin.specs.Operands.{flag_of, flag_at, flags_with, flags_in, access_word, access_words};
ghost use Rattle.jasmin_operands.specs.Views.{words_of};

use crate::judgement::{Judged, judge_test, unless};
use descriptor::is_text;
use jasmin::statement::Flaw;
use jasmin::token::{Lexeme, Token};

/// The kind of declaration whose access words a line has.
#[derive(Clone, Copy)]
pub enum AccessWords {
    Class,
    Field,
    Method,
}

/// The access words of classes and interfaces.
const CLASS_WORDS: [(&str, u16); 5] = [
    ("public", 0x0001),
    ("final", 0x0010),
    ("abstract", 0x0400),
    ("interface", 0x0200),
    ("super", 0x0020),
];

/// The access words of fields.
const FIELD_WORDS: [(&str, u16); 7] = [
    ("public", 0x0001),
    ("private", 0x0002),
    ("protected", 0x0004),
    ("static", 0x0008),
    ("final", 0x0010),
    ("volatile", 0x0040),
    ("transient", 0x0080),
];

/// The access words of methods.
const METHOD_WORDS: [(&str, u16); 8] = [
    ("public", 0x0001),
    ("private", 0x0002),
    ("protected", 0x0004),
    ("static", 0x0008),
    ("final", 0x0010),
    ("synchronized", 0x0020),
    ("native", 0x0100),
    ("abstract", 0x0400),
];

/// Returns the access words of a kind, with their flags.
pub fn access_table(words: AccessWords) -> &'static [(&'static str, u16)]
    ensures { map (λ w. (w.0.now, w.1)) result.now ≡ words_of words }
{
    match words {
        AccessWords::Class => &CLASS_WORDS,
        AccessWords::Field => &FIELD_WORDS,
        AccessWords::Method => &METHOD_WORDS,
    }
}

/// Returns the flag of a word in a table.
fn flag_in(table: &[(&str, u16)], word: &[u16]) -> Option<u16>
    ensures { result ≡ flag_of (map (λ w. (w.0.now, w.1)) table.now) word.now }
{
    let mut rest = table;
    while let [(text, flag), behind @ ..] = rest {
        if is_text(text, word) {
            return Some(*flag);
        }
        rest = behind;
    }
    None
}

/// Returns the flag of a token, if it is one of these words.
fn flag_at(words: AccessWords, lexeme: &Lexeme) -> Option<u16>
    ensures { result ≡ flag_at (words_of words) lexeme.now }
{
    match lexeme {
        Lexeme::Word(units) => flag_in(access_table(words), units.as_slice()),
        _ => None,
    }
}

/// Returns the flags so far, with that of a token, if it is one of these words.
fn with_flag(words: AccessWords, before: u16, lexeme: &Lexeme) -> u16
    ensures { result ≡ flags_with (words_of words) before (lexeme.now ∷ []) }
{
    match flag_at(words, lexeme) {
        Some(flag) => before | flag,
        None => before,
    }
}

/// Returns the flags of all tokens that are access words of a kind.
pub fn flags_in(words: AccessWords, tokens: &[Token]) -> u16
    ensures { result ≡ flags_in (words_of words) (lexemes tokens.now) }
{
    let mut flags = 0;
    for token in tokens {
        flags = with_flag(words, flags, &token.lexeme);
    }
    flags
}

/// Judges a token that has to be an access word of a kind, whose flag isn't set yet.
fn access_word(words: AccessWords, before: u16, lexeme: &Lexeme) -> Judged<()>
    ensures { result ≡ access_word (words_of words) before lexeme.now }
{
    match lexeme {
        Lexeme::Word(units) => match flag_in(access_table(words), units.as_slice()) {
            Some(flag) => judge_test(before & flag == 0, Flaw::Flags),
            None => Err(Flaw::Flags),
        },
        _ => Err(Flaw::Operand),
    }
}

/// Judges tokens that have to be access words of a kind, without repetition.
///
/// # Errors
///
/// Returns `Operand` if a token is no word, or else `Flags` if a word is none of these or is repeated.
#[tactic(auto, using(crate::proofs::Judgements::unless_none, crate::proofs::Judgements::unless_alone, crate::proofs::Judgements::unless_again))]
pub fn access_words(words: AccessWords, tokens: &[Token]) -> Judged<()>
    ensures { result ≡ access_words (words_of words) (lexemes tokens.now) }
{
    let mut judged = Ok(());
    let mut before = 0;
    for token in tokens {
        judged = unless(judged, access_word(words, before, &token.lexeme));
        before = with_flag(words, before, &token.lexeme);
    }
    judged
}
