//! Reads one line, given the lines before it.

ghost use Rattle.jasmin.specs.Sources.{units_of};
ghost use Rattle.jasmin.specs.Lexing.{lexemes};
ghost use Rattle.jasmin.specs.Reading.{judge_statement, judge_line, with_lexemes, with_line};
ghost use Rattle.jasmin_instructions.specs.Saying.{Says};

use crate::open::Open;
use crate::place::is_in_place;
use crate::switch::{sort_of, switch_of};
use jasmin::statement::{Flaw, LineKind, Statement};
use jasmin::token::Token;
use jasmin_instructions::LineFault;
use jasmin_lex::{LexFault, tokens};
use jasmin_statements::{kind_of, statement_of};
use std::alloc::Global;

/// Adds a statement that doesn't repeat another.
///
/// # Errors
///
/// Returns `Repeated` for any other, or `Memory` if memory ran out.
fn judge_statement(alloc: Global, before: Open, statement: Statement) -> Result<Open, LineFault>
    ensures { Says result (judge_statement before statement) }
{
    let fault = match before.is_repeated(&statement) {
        Ok(false) => return Ok(before.with_statement(alloc, statement)?),
        Ok(true) => LineFault::Flaw(Flaw::Repeated),
        Err(error) => LineFault::from(error),
    };
    drop(statement);
    drop(before);
    Err(fault)
}

/// Judges a line of a kind, and adds its statement.
///
/// # Errors
///
/// Returns the line's fault, or `Memory` if memory ran out.
fn judge_line(
    alloc: Global,
    before: Open,
    kind: LineKind,
    tokens: &[Token],
) -> Result<Open, LineFault>
    ensures { Says result (judge_line before kind (lexemes tokens.now)) }
{
    let reading = before.reading();
    if !is_in_place(reading, kind) {
        return Err(LineFault::Flaw(Flaw::OutOfPlace));
    }
    let sort = sort_of(reading.access);
    let statement = statement_of(alloc, sort, switch_of(reading), kind, tokens)?;
    judge_statement(alloc, before, statement?)
}

/// Judges the line of these tokens, and adds its statement.
fn with_tokens(alloc: Global, before: Open, tokens: &[Token]) -> Result<Open, LineFault>
    ensures { Says result (with_lexemes before (lexemes tokens.now)) }
{
    let kind = kind_of(switch_of(before.reading()), tokens)?;
    judge_line(alloc, before, kind, tokens)
}

/// Returns the state of the reader after a line.
///
/// # Errors
///
/// Returns the line's fault, or `Memory` if memory ran out.
#[tactic(auto, unfolding(jasmin::specs::Reading::with_line))]
pub(crate) fn with_line(alloc: Global, before: Open, line: &str) -> Result<Open, LineFault>
    ensures { Says result (with_line before (units_of line.now)) }
{
    match tokens(alloc, line) {
        Ok(tokens) => with_tokens(alloc, before, &tokens),
        Err(LexFault::Lexeme) => Err(LineFault::Flaw(Flaw::Lexeme)),
        Err(LexFault::Memory) => Err(LineFault::Memory),
    }
}
