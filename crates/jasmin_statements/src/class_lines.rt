//! Judges the directives before the members: `.bytecode`, `.source`, `.class`, `.interface`, `.super`, `.implements`.

ghost use Rattle.std.specs.Prelude.{◌≡◌};
ghost use Rattle.std.specs.Option.{option_map};
ghost use Rattle.jasmin.specs.Lexing.{lexemes};
ghost use Rattle.jasmin.specs.Judgements.{map_ok, unless};
ghost use Rattle.jasmin.specs.Operands.{class_words, access_words, class_name_at};
ghost use Rattle.jasmin.specs.Statements.{version_at, bytecode_line, file_at, source_line, but_last, last_of, class_line, super_line, implements_line};
ghost use Rattle.jasmin_instructions.specs.Saying.{Says};

use crate::places::{but_last, last_of};
use jasmin::statement::{Flaw, Statement};
use jasmin::token::{Lexeme, Token};
use jasmin_instructions::{LineFault, alone, word_unless};
use jasmin_operands::{
    AccessWords, Judged, access_words, both, class_name_at, exactly, flags_in, is_version,
    judge_test, operand,
};
use shared_data::texts::copied_text;
use std::alloc::Global;

/// Judges the version of a `.bytecode`, which is dropped.
fn version_at(lexeme: Option<&Lexeme>) -> Judged<()>
    ensures { result ≡ version_at (option_map (λ l. l.now) lexeme.entry) }
{
    match lexeme {
        None => Err(Flaw::Operand),
        Some(Lexeme::Word(word)) => judge_test(is_version(word.as_slice()), Flaw::Number),
        Some(_) => Err(Flaw::Number),
    }
}

/// Judges `.bytecode M.N`.
#[tactic(auto, unfolding(jasmin::specs::Statements::bytecode_line))]
pub(crate) fn bytecode_line(tokens: &[Token]) -> Judged<Statement>
    ensures { result ≡ bytecode_line (lexemes tokens.now) }
{
    both(version_at(operand(tokens, 0)), exactly(1, tokens))?;
    Ok(Statement::Bytecode)
}

/// Judges the file's name of a `.source`, a word or a text, which is dropped.
fn file_at(lexeme: Option<&Lexeme>) -> Judged<()>
    ensures { result ≡ file_at (option_map (λ l. l.now) lexeme.entry) }
{
    match lexeme {
        Some(Lexeme::Word(_) | Lexeme::Text(_)) => Ok(()),
        _ => Err(Flaw::Operand),
    }
}

/// Judges `.source FILE`.
#[tactic(auto, unfolding(jasmin::specs::Statements::source_line))]
pub(crate) fn source_line(tokens: &[Token]) -> Judged<Statement>
    ensures { result ≡ source_line (lexemes tokens.now) }
{
    both(file_at(operand(tokens, 0)), exactly(1, tokens))?;
    Ok(Statement::SourceFile)
}

/// Judges the access words and the name of a class, and returns the name.
fn class_head(tokens: &[Token]) -> Judged<&[u16]>
    ensures { map_ok (λ w. w.now) result ≡ unless (class_name_at (last_of (lexemes tokens.now)))
        (access_words class_words (but_last (lexemes tokens.now))) }
{
    word_unless(
        class_name_at(last_of(tokens)),
        access_words(AccessWords::Class, but_last(tokens)),
    )
}

/// Judges `.class ACCESS NAME` or `.interface ACCESS NAME`. The directive adds the flags `added`.
#[tactic(auto, unfolding(jasmin::specs::Statements::class_line))]
pub(crate) fn class_line(
    alloc: Global,
    added: u16,
    tokens: &[Token],
) -> Result<Statement, LineFault>
    ensures { Says result (class_line added (lexemes tokens.now)) }
{
    let name = class_head(tokens)?;
    Ok(Statement::Class {
        access: flags_in(AccessWords::Class, but_last(tokens)) | added,
        name: copied_text(alloc, name)?,
    })
}

/// Judges `.super NAME`.
#[tactic(auto, unfolding(jasmin::specs::Statements::super_line))]
pub(crate) fn super_line(alloc: Global, tokens: &[Token]) -> Result<Statement, LineFault>
    ensures { Says result (super_line (lexemes tokens.now)) }
{
    let name = alone(class_name_at(operand(tokens, 0)), tokens)?;
    Ok(Statement::Superclass(copied_text(alloc, name)?))
}

/// Judges `.implements NAME`.
#[tactic(auto, unfolding(jasmin::specs::Statements::implements_line))]
pub(crate) fn implements_line(alloc: Global, tokens: &[Token]) -> Result<Statement, LineFault>
    ensures { Says result (implements_line (lexemes tokens.now)) }
{
    let name = alone(class_name_at(operand(tokens, 0)), tokens)?;
    Ok(Statement::Implements(copied_text(alloc, name)?))
}
