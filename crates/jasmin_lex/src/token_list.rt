//! Reads the tokens of a line.

ghost use Rattle.std.specs.Prelude.{◌≡◌, ◌≤◌, List, length, true, Some, IfOk};
ghost use Rattle.jasmin.specs.declared.token.Lexeme.{Lexeme as LexemeValue};
ghost use Rattle.jasmin.specs.declared.token.Token.{Token as TokenValue};
ghost use Rattle.jasmin.specs.Sources.{units_of};
ghost use Rattle.jasmin.specs.Lexing.{lexeme_from, token_from, tokens_of, Lexes};
ghost use Rattle.jasmin_lex.specs.Lexed.{IsLexed};

use crate::fault::LexFault;
use crate::space::begin;
use crate::text::text_at;
use crate::units::units_of;
use crate::word::{COLON, EQUALS, QUOTE, word_at};
use jasmin::token::{Lexeme, Token};
use shared_data::items::Items;
use std::alloc::{AllocError, Global};

/// Returns a word of these units.
fn word(alloc: Global, units: &[u16]) -> Result<Lexeme, AllocError>
    ensures { IfOk result (λ l. l ≡ LexemeValue.Word units.now) }
{
    Ok(Lexeme::Word(Items::from_vec(Vec::from_slice(alloc, units)?)))
}

/// Reads a token without its place, and returns it and the rest.
#[tactic(auto, unfolding(jasmin::specs::Lexing::lexeme_from))]
fn lexeme_at(alloc: Global, units: &[u16]) -> Result<(Lexeme, &[u16]), LexFault>
    ensures { IsLexed (λ x. (x.0, x.1.now)) result (lexeme_from units.now) }
{
    let [unit, behind @ ..] = units else {
        return Err(LexFault::Lexeme);
    };
    match *unit {
        QUOTE => {
            let (text, rest) = text_at(alloc, behind)?;
            Ok((Lexeme::Text(text), rest))
        }
        COLON => Ok((Lexeme::Colon, behind)),
        EQUALS => Ok((Lexeme::Equals, behind)),
        _ => {
            let (units, rest) = word_at(units);
            Ok((word(alloc, units)?, rest))
        }
    }
}

/// Reads a token from the rest of a line of `size` units, and returns it and what follows it.
#[tactic(auto, using(jasmin::proofs::Tokens::lexeme_fits), unfolding(jasmin::specs::Lexing::token_from))]
fn token_at(alloc: Global, size: usize, units: &[u16]) -> Result<(Token, &[u16]), LexFault>
    requires { length units.now ≤ size }
    ensures { IsLexed (λ x. (x.0, x.1.now)) result (token_from size units.now) }
{
    let (lexeme, behind) = lexeme_at(alloc, units)?;
    let start = size - units.len();
    let end = size - behind.len();
    Ok((Token { lexeme, start, end }, behind))
}

/// Returns the tokens of a line's UTF-16 code units.
fn tokens_in(alloc: Global, line: &[u16]) -> Result<Vec<Token>, LexFault>
    ensures { IsLexed (λ v. v.items) result (tokens_of line.now) }
{
    let mut tokens = Vec::new(alloc);
    let mut rest = begin(true, line);
    while !rest.is_empty() {
        let (token, behind) = match token_at(alloc, line.len(), rest) {
            Ok(read) => read,
            Err(fault) => return Err(fault),
        };
        tokens.push(token)?;
        rest = begin(false, behind);
    }
    Ok(tokens)
}

/// Returns the tokens of a line in UTF-8.
fn tokens_of_text(alloc: Global, line: &str) -> Result<Vec<Token>, LexFault>
    ensures { IsLexed (λ v. v.items) result (tokens_of (units_of line.now)) }
{
    let units = units_of(alloc, line)?;
    tokens_in(alloc, &units)
}

/// Returns the tokens of a line. The line is given without its line end.
pub fn tokens(alloc: Global, line: &str) -> Result<Vec<Token>, LexFault>
    // The result is the only list of tokens that spells the line, or `Lexeme` if there is none.
    ensures exact { IsLexed (λ v. v.items) result (tokens_of (units_of line.now)) }
    // The tokens that are read spell the line, each at its place.
    ensures found { IfOk result (λ v. Lexes true 0 (units_of line.now) v.items) }
    // Tokens that spell the line are read, unless memory runs out.
    ensures only { (ts : List TokenValue) → Lexes true 0 (units_of line.now) ts
        → IsLexed (λ v. v.items) result (Some ts) }
{
    tokens_of_text(alloc, line)
}
