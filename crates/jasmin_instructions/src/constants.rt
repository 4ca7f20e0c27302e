//! Judges the operands of `ldc` and `ldc_w`.

ghost use Rattle.std.specs.Prelude.{◌≡◌, IfOk};
ghost use Rattle.std.specs.Option.{option_map};
ghost use Rattle.jasmin.specs.Lexing.{lexemes};
ghost use Rattle.jasmin.specs.Judgements.{map_ok};
ghost use Rattle.jasmin.specs.Operands.{i32_at, class_at};
ghost use Rattle.jasmin.specs.Statements.{loaded_at, alone, constant_operation};
ghost use Rattle.jasmin_instructions.specs.Saying.{Says};
ghost use Rattle.jasmin_instructions.specs.Views.{loaded_of};

use crate::fault::LineFault;
use jasmin::source::{ConstantWidth, LoadedConstant, Operation};
use jasmin::statement::Flaw;
use jasmin::token::{Lexeme, Token};
use jasmin_operands::{Judged, class_at, exactly, i32_at, operand, spells_number, unless};
use shared_data::boxed::Boxed;
use shared_data::texts::copied_text;
use std::alloc::{AllocError, Global};

/// A constant that is loaded, borrowed from its line.
#[derive(Clone, Copy, Drop)]
pub(crate) enum BorrowedConstant<'a> {
    Integer(i32),
    String(&'a [u16]),
    Class(&'a [u16]),
}

/// Judges the number that is loaded.
fn loaded_number(lexeme: Option<&Lexeme>) -> Judged<BorrowedConstant<'_>>
    ensures { map_ok loaded_of result
        ≡ map_ok (λ n. LoadedConstant.Integer n) (i32_at (option_map (λ l. l.now) lexeme.entry)) }
{
    Ok(BorrowedConstant::Integer(i32_at(lexeme)?))
}

/// Judges the class that is loaded.
fn loaded_class(lexeme: Option<&Lexeme>) -> Judged<BorrowedConstant<'_>>
    ensures { map_ok loaded_of result ≡ map_ok (λ name. LoadedConstant.Class name)
        (class_at (option_map (λ l. l.now) lexeme.entry)) }
{
    Ok(BorrowedConstant::Class(class_at(lexeme)?))
}

/// Judges the constant that is loaded: a text, a word that is a number, or else a class.
fn loaded_at(lexeme: Option<&Lexeme>) -> Judged<BorrowedConstant<'_>>
    ensures { map_ok loaded_of result ≡ loaded_at (option_map (λ l. l.now) lexeme.entry) }
{
    match lexeme {
        Some(Lexeme::Text(units)) => Ok(BorrowedConstant::String(units.as_slice())),
        Some(Lexeme::Word(word)) => {
            if spells_number(word.as_slice()) {
                loaded_number(lexeme)
            } else {
                loaded_class(lexeme)
            }
        }
        Some(Lexeme::Colon | Lexeme::Equals) | None => Err(Flaw::Operand),
    }
}

/// Judges the only operand of a load.
#[tactic(auto, using(jasmin_operands::proofs::Judgements::said_unless))]
fn loaded(tokens: &[Token]) -> Judged<BorrowedConstant<'_>>
    ensures { map_ok loaded_of result ≡ alone loaded_at (lexemes tokens.now) }
{
    unless(loaded_at(operand(tokens, 0)), exactly(1, tokens))
}

/// Returns the constant that is loaded, with its own memory.
fn loaded_of(alloc: Global, operand: BorrowedConstant<'_>) -> Result<LoadedConstant, AllocError>
    ensures { IfOk result (λ c. c ≡ loaded_of operand.entry) }
{
    match operand {
        BorrowedConstant::Integer(number) => Ok(LoadedConstant::Integer(number)),
        BorrowedConstant::String(units) => Ok(LoadedConstant::String(copied_text(alloc, units)?)),
        BorrowedConstant::Class(name) => Ok(LoadedConstant::Class(copied_text(alloc, name)?)),
    }
}

/// Judges the operand of JVMS 6.5 `ldc`, `ldc_w`.
///
/// # Errors
///
/// Returns the fault of the least number, or `Memory` if memory ran out.
#[tactic(auto, unfolding(jasmin::specs::Statements::constant_operation))]
pub(crate) fn constant_operation(
    alloc: Global,
    width: ConstantWidth,
    tokens: &[Token],
) -> Result<Operation, LineFault>
    ensures { Says result (constant_operation width (lexemes tokens.now)) }
{
    let constant = loaded_of(alloc, loaded(tokens)?)?;
    Ok(Operation::Constant(width, Boxed::new(alloc, constant)?))
}
