//! Judges operands that are words.

ghost use Rattle.std.specs.Prelude.{◌≡◌};
ghost use Rattle.std.specs.Option.{option_map};
ghost use Rattle.jasmin.specs.Judgements.{map_ok};
ghost use Rattle.jasmin.specs.Operands.{word_at, keyword_at, name_at, class_name_at, class_at, field_descriptor_at, is_label, label_at};
ghost use Rattle.jasmin.specs.Statements.{word_or_none};

use crate::judgement::{Judged, judge_test};
use crate::letters::{DOT, MINUS, NINE, PLUS, ZERO};
use descriptor::{is_class_entry_name, is_class_name, is_field_descriptor, is_name, is_text};
use jasmin::statement::Flaw;
use jasmin::token::Lexeme;

/// Judges a place that requires a word, and returns the word.
///
/// # Errors
///
/// Returns `Operand` if there is another token or none.
pub fn word_at(lexeme: Option<&Lexeme>) -> Judged<&[u16]>
    ensures { map_ok (λ w. w.now) result ≡ word_at (option_map (λ l. l.now) lexeme.entry) }
{
    match lexeme {
        Some(Lexeme::Word(units)) => Ok(units.as_slice()),
        _ => Err(Flaw::Operand),
    }
}

/// Returns the units of a word, or none for another token.
pub fn word_or_none(lexeme: Option<&Lexeme>) -> &[u16]
    ensures { result.now ≡ word_or_none (option_map (λ l. l.now) lexeme.entry) }
{
    match lexeme {
        Some(Lexeme::Word(units)) => units.as_slice(),
        _ => &[],
    }
}

/// Judges a place that requires a given word.
///
/// # Errors
///
/// Returns `Operand` if there is anything else or nothing.
pub fn keyword_at(text: &str, lexeme: Option<&Lexeme>) -> Judged<()>
    ensures { result ≡ keyword_at text.now (option_map (λ l. l.now) lexeme.entry) }
{
    let word = word_at(lexeme)?;
    judge_test(is_text(text, word), Flaw::Operand)
}

/// Judges a place that requires the name of a field or a local variable (JVMS 4.2.2).
///
/// # Errors
///
/// Returns `Operand` if there is no word, and `Name` if the word is no name.
pub fn name_at(lexeme: Option<&Lexeme>) -> Judged<&[u16]>
    ensures { map_ok (λ w. w.now) result ≡ name_at (option_map (λ l. l.now) lexeme.entry) }
{
    let word = word_at(lexeme)?;
    judge_test(is_name(word), Flaw::Name)?;
    Ok(word)
}

/// Judges a place that requires the name of a class, which is no array's (JVMS 4.2.1).
///
/// # Errors
///
/// Returns `Operand` if there is no word, and `Name` if the word is no class's name.
pub fn class_name_at(lexeme: Option<&Lexeme>) -> Judged<&[u16]>
    ensures { map_ok (λ w. w.now) result ≡ class_name_at (option_map (λ l. l.now) lexeme.entry) }
{
    let word = word_at(lexeme)?;
    judge_test(is_class_name(word), Flaw::Name)?;
    Ok(word)
}

/// Judges a place that requires the name of a class or an array's descriptor (JVMS 4.4.1).
///
/// # Errors
///
/// Returns `Operand` if there is no word, and `Name` if the word is neither.
pub fn class_at(lexeme: Option<&Lexeme>) -> Judged<&[u16]>
    ensures { map_ok (λ w. w.now) result ≡ class_at (option_map (λ l. l.now) lexeme.entry) }
{
    let word = word_at(lexeme)?;
    judge_test(is_class_entry_name(word), Flaw::Name)?;
    Ok(word)
}

/// Judges a place that requires a field's descriptor (JVMS 4.3.2).
///
/// # Errors
///
/// Returns `Operand` if there is no word, and `Descriptor` if the word is no descriptor.
pub fn field_descriptor_at(lexeme: Option<&Lexeme>) -> Judged<&[u16]>
    ensures { map_ok (λ w. w.now) result
        ≡ field_descriptor_at (option_map (λ l. l.now) lexeme.entry) }
{
    let word = word_at(lexeme)?;
    judge_test(is_field_descriptor(word), Flaw::Descriptor)?;
    Ok(word)
}

/// Decides whether a word is a label: it isn't empty and doesn't begin with a digit, `+`, `-` or `.`.
fn is_label(word: &[u16]) -> bool
    ensures { result ≡ is_label word.now }
{
    match word {
        [] => false,
        [unit, ..] => !matches!(*unit, ZERO..=NINE | PLUS | MINUS | DOT),
    }
}

/// Judges a place that requires a label.
///
/// # Errors
///
/// Returns `Operand` if there is no word, and `Name` if the word is no label.
pub fn label_at(lexeme: Option<&Lexeme>) -> Judged<&[u16]>
    ensures { map_ok (λ w. w.now) result ≡ label_at (option_map (λ l. l.now) lexeme.entry) }
{
    let word = word_at(lexeme)?;
    judge_test(is_label(word), Flaw::Name)?;
    Ok(word)
}
