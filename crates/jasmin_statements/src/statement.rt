//! Judges a line of a kind.

ghost use Rattle.std.specs.Prelude.{◌≡◌, IfOk, drop};
ghost use Rattle.jasmin.specs.Lexing.{lexemes};
ghost use Rattle.jasmin.specs.Judgements.{both, map_ok};
ghost use Rattle.jasmin.specs.Statements.{directive_line, instruction_line, label_line, statement_of};
ghost use Rattle.jasmin_instructions.specs.Saying.{Says};

use crate::class_lines::{bytecode_line, class_line, implements_line, source_line, super_line};
use crate::code_lines::{catch_line, limit_line, line_line, throws_line, var_line};
use crate::field_line::field_line;
use crate::method_lines::{end_line, method_line};
use crate::places::after;
use crate::switch_lines::{case_line, default_line};
use jasmin::statement::{ClassSort, Directive, LineKind, OpenSwitch, Statement};
use jasmin::token::Token;
use jasmin_instructions::{LineFault, instruction_line};
use jasmin_operands::{Judged, label_at, lesser, operand};
use shared_data::texts::copied_text;
use std::alloc::{AllocError, Global};

/// The flag that `.class` adds: ACC_SUPER (JVMS table 4.1-A).
const OF_A_CLASS: u16 = 0x0020;

/// The flags that `.interface` adds: ACC_INTERFACE and ACC_ABSTRACT (JVMS table 4.1-A).
const OF_AN_INTERFACE: u16 = 0x0600;

/// Judges the operands of a directive.
fn directive_line(
    alloc: Global,
    directive: Directive,
    sort: ClassSort,
    tokens: &[Token],
) -> Result<Statement, LineFault>
    ensures { Says result (directive_line directive sort (lexemes tokens.now)) }
{
    match directive {
        Directive::Bytecode => Ok(bytecode_line(tokens)?),
        Directive::Source => Ok(source_line(tokens)?),
        Directive::Class => class_line(alloc, OF_A_CLASS, tokens),
        Directive::Interface => class_line(alloc, OF_AN_INTERFACE, tokens),
        Directive::Super => super_line(alloc, tokens),
        Directive::Implements => implements_line(alloc, tokens),
        Directive::Field => field_line(alloc, tokens),
        Directive::Method => method_line(alloc, sort, tokens),
        Directive::End => Ok(end_line(tokens)?),
        Directive::Limit => Ok(limit_line(tokens)?),
        Directive::Catch => catch_line(alloc, tokens),
        Directive::Throws => throws_line(alloc, tokens),
        Directive::Line => Ok(line_line(tokens)?),
        Directive::Var => Ok(var_line(tokens)?),
    }
}

/// Judges the label at a line's start.
fn label_line(tokens: &[Token]) -> Judged<&[u16]>
    ensures { map_ok (λ w. w.now) result ≡ label_line (lexemes tokens.now) }
{
    label_at(operand(tokens, 0))
}

/// Judges a label and an instruction, whose mnemonic is the third token.
fn labelled_line(alloc: Global, code: u8, tokens: &[Token]) -> Result<Statement, LineFault>
    ensures { Says result (map_ok (λ p. Statement.LabelledInstruction p.0 p.1) (both
        (label_line (lexemes tokens.now)) (instruction_line code (drop 3 (lexemes tokens.now))))) }
{
    let instruction = instruction_line(alloc, code, after(3, tokens));
    match (label_line(tokens), instruction) {
        (Ok(label), Ok(instruction)) => Ok(Statement::LabelledInstruction(
            copied_text(alloc, label)?,
            instruction,
        )),
        (Ok(_), Err(fault)) => Err(fault),
        (Err(flaw), Ok(_)) => Err(LineFault::Flaw(flaw)),
        (Err(flaw), Err(LineFault::Flaw(other))) => Err(LineFault::Flaw(lesser(flaw, other))),
        (Err(_), Err(LineFault::Memory)) => Err(LineFault::Memory),
    }
}

/// Judges a line of a kind.
#[tactic(auto, unfolding(jasmin::specs::Statements::statement_of))]
fn line_of(
    alloc: Global,
    sort: ClassSort,
    switch: OpenSwitch,
    kind: LineKind,
    tokens: &[Token],
) -> Result<Statement, LineFault>
    ensures { Says result (statement_of sort switch kind (lexemes tokens.now)) }
{
    match kind {
        LineKind::Blank => Ok(Statement::Blank),
        LineKind::Directive(directive) => directive_line(alloc, directive, sort, after(1, tokens)),
        LineKind::Case => case_line(alloc, switch, tokens),
        LineKind::Default => default_line(alloc, tokens),
        LineKind::Label => Ok(Statement::Label(copied_text(alloc, label_line(tokens)?)?)),
        LineKind::Instruction(code) => {
            Ok(Statement::Instruction(instruction_line(alloc, code, after(1, tokens))?))
        }
        LineKind::LabelledInstruction(code) => labelled_line(alloc, code, tokens),
    }
}

/// Judges a line of a kind, and returns its statement or the fault of the least number.
///
/// # Errors
///
/// Returns `AllocError` if memory ran out.
pub fn statement_of(
    alloc: Global,
    sort: ClassSort,
    switch: OpenSwitch,
    kind: LineKind,
    tokens: &[Token],
) -> Result<Judged<Statement>, AllocError>
    ensures { IfOk result (λ judged. judged ≡ statement_of sort switch kind (lexemes tokens.now)) }
{
    match line_of(alloc, sort, switch, kind, tokens) {
        Ok(statement) => Ok(Ok(statement)),
        Err(LineFault::Flaw(flaw)) => Ok(Err(flaw)),
        Err(LineFault::Memory) => Err(AllocError),
    }
}
