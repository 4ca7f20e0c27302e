//! Finds the operands of a line by place.

ghost use Rattle.std.specs.Prelude.{◌≡◌, slice_get};
ghost use Rattle.std.specs.Option.{option_map};
ghost use Rattle.jasmin.specs.Lexing.{lexemes};
ghost use Rattle.jasmin.specs.Operands.{exactly};

use crate::judgement::{Judged, judge_test};
use jasmin::statement::Flaw;
use jasmin::token::{Lexeme, Token};

/// Returns the operand at a place, if there is one.
pub fn operand(tokens: &[Token], place: usize) -> Option<&Lexeme>
    ensures { option_map (λ l. l.now) result ≡ slice_get (lexemes tokens.now) place }
{
    tokens.get(place).map(|token| &token.lexeme)
}

/// Judges the number of operands.
///
/// # Errors
///
/// Returns `Operand` if there are fewer or more than `count`.
pub fn exactly(count: usize, tokens: &[Token]) -> Judged<()>
    ensures { result ≡ exactly count (lexemes tokens.now) }
{
    judge_test(tokens.len() == count, Flaw::Operand)
}
