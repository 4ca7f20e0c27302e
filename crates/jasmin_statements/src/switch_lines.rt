//! Judges the lines of a switch.

ghost use Rattle.std.specs.Prelude.{◌≡◌, int_le, pos, slice_get};
ghost use Rattle.std.specs.Option.{option_map};
ghost use Rattle.jvms_file.specs.Instructions.{is_above};
ghost use Rattle.jasmin.specs.Lexing.{lexemes};
ghost use Rattle.jasmin.specs.Judgements.{map_ok, both, unless, judge_test};
ghost use Rattle.jasmin.specs.Operands.{exactly, label_at, i32_at};
ghost use Rattle.jasmin.specs.Statements.{table_line, colon_at, label_after_colon, rising_at, match_line, case_line, default_line};
ghost use Rattle.jasmin_instructions.specs.Saying.{Says};

use jasmin::source::MatchLine;
use jasmin::statement::{Flaw, OpenSwitch, Statement};
use jasmin::token::{Lexeme, Token};
use jasmin_instructions::{LineFault, alone, word_unless};
use jasmin_operands::{Judged, both, exactly, i32_at, judge_test, label_at, operand};
use shared_data::texts::copied_text;
use std::alloc::Global;

/// Judges the label of a line of a `tableswitch`. Its value `next` has to fit an int.
fn table_label(next: i64, tokens: &[Token]) -> Judged<&[u16]>
    ensures { let ts = lexemes tokens.now in
        map_ok (λ w. w.now) result ≡ unless (unless (label_at (slice_get ts 0)) (exactly 1 ts))
        (judge_test (int_le next (pos 2147483647)) Flaw.Number) }
{
    word_unless(
        alone(label_at(operand(tokens, 0)), tokens),
        judge_test(next <= i64::from(i32::MAX), Flaw::Number),
    )
}

/// Judges a line of a `tableswitch`, which is a label.
#[tactic(auto, unfolding(jasmin::specs::Statements::table_line))]
fn table_line(alloc: Global, next: i64, tokens: &[Token]) -> Result<Statement, LineFault>
    ensures { Says result (table_line next (lexemes tokens.now)) }
{
    let label = table_label(next, tokens)?;
    Ok(Statement::TableLabel(copied_text(alloc, label)?))
}

/// Judges a place that requires a colon.
fn colon_at(lexeme: Option<&Lexeme>) -> Judged<()>
    ensures { result ≡ colon_at (option_map (λ l. l.now) lexeme.entry) }
{
    match lexeme {
        Some(Lexeme::Colon) => Ok(()),
        _ => Err(Flaw::Operand),
    }
}

/// Judges a colon and a label, the second and third of exactly three tokens.
fn label_after_colon(tokens: &[Token]) -> Judged<&[u16]>
    ensures { map_ok (λ w. w.now) result ≡ label_after_colon (lexemes tokens.now) }
{
    let label = word_unless(label_at(operand(tokens, 2)), colon_at(operand(tokens, 1)));
    word_unless(label, exactly(3, tokens))
}

/// Decides whether a value is above the last one, or there is no last one.
fn is_above(last: Option<i32>, value: i32) -> bool
    ensures { result ≡ is_above last value }
{
    match last {
        Some(last) => last < value,
        None => true,
    }
}

/// Judges a value that has to be above that of the line before.
fn rising_at(last: Option<i32>, value: Judged<i32>) -> Judged<i32>
    ensures { result ≡ rising_at last value }
{
    let value = value?;
    if is_above(last, value) {
        Ok(value)
    } else {
        Err(Flaw::Operand)
    }
}

/// Judges the value and the label of a line of a `lookupswitch`.
#[tactic(auto, using(jasmin_operands::proofs::Judgements::said_both))]
fn match_parts(last: Option<i32>, tokens: &[Token]) -> Judged<(i32, &[u16])>
    ensures { let ts = lexemes tokens.now in
        map_ok (λ p. (p.0, p.1.now)) result
        ≡ both (rising_at last (i32_at (slice_get ts 0))) (label_after_colon ts) }
{
    both(
        rising_at(last, i32_at(operand(tokens, 0))),
        label_after_colon(tokens),
    )
}

/// Judges a line of a `lookupswitch`: `VALUE : LABEL`.
#[tactic(auto, unfolding(jasmin::specs::Statements::match_line))]
fn match_line(alloc: Global, last: Option<i32>, tokens: &[Token]) -> Result<Statement, LineFault>
    ensures { Says result (match_line last (lexemes tokens.now)) }
{
    let (value, label) = match_parts(last, tokens)?;
    Ok(Statement::Match(MatchLine {
        value,
        label: copied_text(alloc, label)?,
    }))
}

/// Judges a line of the open switch other than its default.
pub(crate) fn case_line(
    alloc: Global,
    switch: OpenSwitch,
    tokens: &[Token],
) -> Result<Statement, LineFault>
    ensures { Says result (case_line switch (lexemes tokens.now)) }
{
    match switch {
        OpenSwitch::None => Err(LineFault::Flaw(Flaw::OutOfPlace)),
        OpenSwitch::Table { next } => table_line(alloc, next, tokens),
        OpenSwitch::Lookup { last } => match_line(alloc, last, tokens),
    }
}

/// Judges the last line of a switch: `default : LABEL`.
#[tactic(auto, unfolding(jasmin::specs::Statements::default_line))]
pub(crate) fn default_line(alloc: Global, tokens: &[Token]) -> Result<Statement, LineFault>
    ensures { Says result (default_line (lexemes tokens.now)) }
{
    let label = label_after_colon(tokens)?;
    Ok(Statement::Default(copied_text(alloc, label)?))
}
