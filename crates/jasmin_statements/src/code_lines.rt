//! Judges the directives within a method: `.limit`, `.catch`, `.throws`, `.line`, `.var`.

ghost use Rattle.std.specs.Prelude.{◌≡◌, IfOk, codes, slice_get};
ghost use Rattle.std.specs.Option.{option_map};
ghost use Rattle.jasmin.specs.Lexing.{lexemes};
ghost use Rattle.jasmin.specs.Judgements.{both, map_ok, unless};
ghost use Rattle.jasmin.specs.Operands.{caught_at, exactly, keyword_at, label_at, name_at, field_descriptor_at, u16_at};
ghost use Rattle.jasmin.specs.Statements.{limit_at, limit_line, label_after, catch_line, throws_line, line_line, var_line};
ghost use Rattle.jasmin_operands.specs.Views.{caught_of};
ghost use Rattle.jasmin_instructions.specs.Saying.{Says};
ghost use Rattle.jasmin_instructions.specs.Views.{two_texts};

use descriptor::is_text;
use jasmin::source::{CatchLine, Caught};
use jasmin::statement::{Flaw, Statement};
use jasmin::token::{Lexeme, Token};
use jasmin_instructions::{LineFault, alone, two_words, word_unless};
use jasmin_operands::{
    CaughtName, Judged, both, caught_at, class_at, exactly, field_descriptor_at, keyword_at,
    label_at, name_at, operand, u16_at, unless, word_at,
};
use shared_data::texts::copied_text;
use std::alloc::{AllocError, Global};

/// Judges the first operand of `.limit`, `stack` or `locals`, and decides whether it is `stack`.
fn limit_at(lexeme: Option<&Lexeme>) -> Judged<bool>
    ensures { result ≡ limit_at (option_map (λ l. l.now) lexeme.entry) }
{
    let word = word_at(lexeme)?;
    if is_text("stack", word) {
        Ok(true)
    } else if is_text("locals", word) {
        Ok(false)
    } else {
        Err(Flaw::Operand)
    }
}

/// Judges `.limit stack N` or `.limit locals N`.
#[tactic(auto, unfolding(jasmin::specs::Statements::limit_line))]
pub(crate) fn limit_line(tokens: &[Token]) -> Judged<Statement>
    ensures { result ≡ limit_line (lexemes tokens.now) }
{
    let limit = both(limit_at(operand(tokens, 0)), u16_at(operand(tokens, 1)));
    let (is_stack, most) = unless(limit, exactly(2, tokens))?;
    if is_stack {
        Ok(Statement::MaxStack(most))
    } else {
        Ok(Statement::MaxLocals(most))
    }
}

/// Judges a given word and the label that follows it.
fn label_after<'a>(
    word: &str,
    before: Option<&Lexeme>,
    label: Option<&'a Lexeme>,
) -> Judged<&'a [u16]>
    ensures { map_ok (λ w. w.now) result ≡ unless (label_at (option_map (λ l. l.now) label.entry))
        (keyword_at word.now (option_map (λ l. l.now) before.entry)) }
{
    word_unless(label_at(label), keyword_at(word, before))
}

/// The operands of a `.catch`, borrowed from its line: the class, the start, the end and the handler.
type CatchParts<'a> = (CaughtName<'a>, (&'a [u16], (&'a [u16], &'a [u16])));

/// Judges the labels of a `.catch`.
#[tactic(auto, using(jasmin_operands::proofs::Judgements::said_both))]
fn catch_labels(tokens: &[Token]) -> Judged<(&[u16], (&[u16], &[u16]))>
    ensures { let ts = lexemes tokens.now in
        map_ok (λ p. (p.0.now, (p.1.0.now, p.1.1.now))) result
        ≡ both (label_after (codes "from") ts 1)
        (both (label_after (codes "to") ts 3) (label_after (codes "using") ts 5)) }
{
    let to = label_after("to", operand(tokens, 3), operand(tokens, 4));
    let handler = label_after("using", operand(tokens, 5), operand(tokens, 6));
    let from = label_after("from", operand(tokens, 1), operand(tokens, 2));
    both(from, two_words(to, handler))
}

/// Judges the class and the labels of a `.catch`.
#[tactic(auto, using(jasmin_operands::proofs::Judgements::said_both))]
fn catch_operands(tokens: &[Token]) -> Judged<CatchParts<'_>>
    ensures { let ts = lexemes tokens.now in
        map_ok (λ p. (caught_of p.0, (p.1.0.now, (p.1.1.0.now, p.1.1.1.now)))) result
        ≡ both (caught_at (slice_get ts 0)) (both (label_after (codes "from") ts 1)
        (both (label_after (codes "to") ts 3) (label_after (codes "using") ts 5))) }
{
    both(caught_at(operand(tokens, 0)), catch_labels(tokens))
}

/// Judges the class and the labels of a `.catch`, its only operands.
#[tactic(auto, using(jasmin_operands::proofs::Judgements::said_unless))]
fn catch_parts(tokens: &[Token]) -> Judged<CatchParts<'_>>
    ensures { let ts = lexemes tokens.now in
        map_ok (λ p. (caught_of p.0, (p.1.0.now, (p.1.1.0.now, p.1.1.1.now)))) result
        ≡ unless (both (caught_at (slice_get ts 0)) (both (label_after (codes "from") ts 1)
        (both (label_after (codes "to") ts 3) (label_after (codes "using") ts 5)))) (exactly 7 ts) }
{
    unless(catch_operands(tokens), exactly(7, tokens))
}

/// Returns what a handler catches, with its own memory.
fn caught_of(alloc: Global, caught: CaughtName<'_>) -> Result<Caught, AllocError>
    ensures { IfOk result (λ c. c ≡ caught_of caught.entry) }
{
    match caught {
        CaughtName::All => Ok(Caught::All),
        CaughtName::Class(name) => Ok(Caught::Class(copied_text(alloc, name)?)),
    }
}

/// Judges `.catch CLASS from A to B using H`.
#[tactic(auto, unfolding(jasmin::specs::Statements::catch_line))]
pub(crate) fn catch_line(alloc: Global, tokens: &[Token]) -> Result<Statement, LineFault>
    ensures { Says result (catch_line (lexemes tokens.now)) }
{
    let (caught, (from, (to, handler))) = catch_parts(tokens)?;
    Ok(Statement::Catch(CatchLine {
        caught: caught_of(alloc, caught)?,
        from: copied_text(alloc, from)?,
        to: copied_text(alloc, to)?,
        using: copied_text(alloc, handler)?,
    }))
}

/// Judges `.throws CLASS`.
#[tactic(auto, unfolding(jasmin::specs::Statements::throws_line))]
pub(crate) fn throws_line(alloc: Global, tokens: &[Token]) -> Result<Statement, LineFault>
    ensures { Says result (throws_line (lexemes tokens.now)) }
{
    let name = alone(class_at(operand(tokens, 0)), tokens)?;
    Ok(Statement::Throws(copied_text(alloc, name)?))
}

/// Judges `.line N`.
#[tactic(auto, unfolding(jasmin::specs::Statements::line_line))]
pub(crate) fn line_line(tokens: &[Token]) -> Judged<Statement>
    ensures { result ≡ line_line (lexemes tokens.now) }
{
    both(u16_at(operand(tokens, 0)), exactly(1, tokens))?;
    Ok(Statement::Dropped)
}

/// Judges the number of a local variable, and the word `is` that follows it.
fn var_number(tokens: &[Token]) -> Judged<(u16, ())>
    ensures { result ≡ both (u16_at (slice_get (lexemes tokens.now) 0))
        (keyword_at (codes "is") (slice_get (lexemes tokens.now) 1)) }
{
    both(
        u16_at(operand(tokens, 0)),
        keyword_at("is", operand(tokens, 1)),
    )
}

/// Judges the name and the descriptor of a `.var`.
fn var_name(tokens: &[Token]) -> Judged<(&[u16], &[u16])>
    ensures { map_ok two_texts result ≡ both (name_at (slice_get (lexemes tokens.now) 2))
        (field_descriptor_at (slice_get (lexemes tokens.now) 3)) }
{
    two_words(
        name_at(operand(tokens, 2)),
        field_descriptor_at(operand(tokens, 3)),
    )
}

/// Judges the labels of a `.var`.
fn var_labels(tokens: &[Token]) -> Judged<(&[u16], &[u16])>
    ensures { map_ok two_texts result ≡ both (label_after (codes "from") (lexemes tokens.now) 4)
        (label_after (codes "to") (lexemes tokens.now) 6) }
{
    two_words(
        label_after("from", operand(tokens, 4), operand(tokens, 5)),
        label_after("to", operand(tokens, 6), operand(tokens, 7)),
    )
}

/// The operands of a `.var`, borrowed from its line: the local variable, the name, the descriptor, the start and the
/// end.
type VarParts<'a> = ((u16, ()), ((&'a [u16], &'a [u16]), (&'a [u16], &'a [u16])));

/// Judges what follows the number of a `.var`: the name, the descriptor and the labels.
#[tactic(auto, using(jasmin_operands::proofs::Judgements::said_both))]
fn after_number(tokens: &[Token]) -> Judged<((&[u16], &[u16]), (&[u16], &[u16]))>
    ensures { let ts = lexemes tokens.now in
        map_ok (λ p. (two_texts p.0, two_texts p.1)) result
        ≡ both
        (both (name_at (slice_get ts 2)) (field_descriptor_at (slice_get ts 3)))
        (both (label_after (codes "from") ts 4) (label_after (codes "to") ts 6)) }
{
    both(var_name(tokens), var_labels(tokens))
}

/// Judges the operands of a `.var`.
#[tactic(auto, using(jasmin_operands::proofs::Judgements::said_both))]
fn var_operands(tokens: &[Token]) -> Judged<VarParts<'_>>
    ensures { let ts = lexemes tokens.now in
        map_ok (λ p. (p.0, (two_texts p.1.0, two_texts p.1.1))) result
        ≡ both
        (both (u16_at (slice_get ts 0)) (keyword_at (codes "is") (slice_get ts 1)))
        (both
        (both (name_at (slice_get ts 2)) (field_descriptor_at (slice_get ts 3)))
        (both (label_after (codes "from") ts 4) (label_after (codes "to") ts 6))) }
{
    both(var_number(tokens), after_number(tokens))
}

/// Judges the operands of a `.var`, which has no others.
#[tactic(auto, using(jasmin_operands::proofs::Judgements::said_unless))]
fn var_parts(tokens: &[Token]) -> Judged<VarParts<'_>>
    ensures { let ts = lexemes tokens.now in
        map_ok (λ p. (p.0, (two_texts p.1.0, two_texts p.1.1))) result
        ≡ unless
        (both
        (both (u16_at (slice_get ts 0)) (keyword_at (codes "is") (slice_get ts 1)))
        (both
        (both (name_at (slice_get ts 2)) (field_descriptor_at (slice_get ts 3)))
        (both (label_after (codes "from") ts 4) (label_after (codes "to") ts 6))))
        (exactly 8 ts) }
{
    unless(var_operands(tokens), exactly(8, tokens))
}

/// Judges `.var N is NAME DESCRIPTOR from A to B`.
#[tactic(auto, unfolding(jasmin::specs::Statements::var_line))]
pub(crate) fn var_line(tokens: &[Token]) -> Judged<Statement>
    ensures { result ≡ var_line (lexemes tokens.now) }
{
    var_parts(tokens)?;
    Ok(Statement::Dropped)
}
