//! Finds parts of a line's tokens.

ghost use Rattle.std.specs.Prelude.{◌≡◌, drop};
ghost use Rattle.std.specs.Option.{option_map};
ghost use Rattle.jasmin.specs.Lexing.{lexemes};
ghost use Rattle.jasmin.specs.Statements.{but_last, last_of};

use jasmin::token::{Lexeme, Token};
use jasmin_operands::operand;

/// Returns all tokens but the last.
#[tactic(auto, using(crate::proofs::TokenLists::lexemes_but_last))]
pub(crate) fn but_last(tokens: &[Token]) -> &[Token]
    ensures { lexemes result.now ≡ but_last (lexemes tokens.now) }
{
    &tokens[..tokens.len().saturating_sub(1)]
}

/// Returns the last token.
pub(crate) fn last_of(tokens: &[Token]) -> Option<&Lexeme>
    ensures { option_map (λ l. l.now) result ≡ last_of (lexemes tokens.now) }
{
    operand(tokens, tokens.len().saturating_sub(1))
}

/// Returns the tokens after the first `count`.
#[tactic(auto, using(crate::proofs::TokenLists::lexemes_behind, crate::proofs::TokenLists::lexemes_drop))]
pub(crate) fn after(count: usize, tokens: &[Token]) -> &[Token]
    ensures { lexemes result.now ≡ drop count (lexemes tokens.now) }
{
    if count <= tokens.len() {
        &tokens[count..]
    } else {
        &[]
    }
}
