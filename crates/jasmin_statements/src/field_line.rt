//! Judges `.field`.

ghost use Rattle.std.specs.Prelude.{◌≡◌, ◌≤◌, length};
ghost use Rattle.std.specs.List.{position_or_len};
ghost use Rattle.std.specs.Option.{option_map};
ghost use Rattle.jasmin.specs.Lexing.{lexemes};
ghost use Rattle.jasmin.specs.Judgements.{both, map_ok, unless};
ghost use Rattle.jasmin.specs.Operands.{field_words, access_words, name_at, field_descriptor_at};
ghost use Rattle.jasmin.specs.Statements.{is_equals, field_head, field_tail, constant_in, word_or_none, field_access, field_name_at, last_of, field_line};
ghost use Rattle.jasmin_instructions.specs.Saying.{Says};
ghost use Rattle.jasmin_statements.specs.Views.{constant_of};

use crate::field_constant::{LentConstant, constant_if, constant_in};
use crate::places::last_of;
use jasmin::source::FieldLine;
use jasmin::statement::Statement;
use jasmin::token::{Lexeme, Token};
use jasmin_instructions::LineFault;
use jasmin_operands::{
    AccessWords, Judged, access_words, both, field_descriptor_at, flags_in, name_at, operand,
    unless, word_or_none,
};
use shared_data::texts::copied_text;
use std::alloc::Global;

/// The operands of a field after its access words, borrowed from its line: the name, the descriptor and the constant.
type FieldParts<'a> = (&'a [u16], (&'a [u16], Option<LentConstant<'a>>));

/// Decides whether a token is an equals sign.
fn is_equals(token: &Token) -> bool
    ensures { result ≡ is_equals token.now.lexeme }
{
    matches!(token.lexeme, Lexeme::Equals)
}

/// Returns the number of tokens before the first equals sign.
fn head_len(tokens: &[Token]) -> usize
    ensures exact { result ≡ position_or_len (λ t. is_equals t.lexeme) tokens.now }
    ensures within { result ≤ length tokens.now }
{
    tokens.iter().take_while(|token| !is_equals(token)).count()
}

/// Returns the tokens before the first equals sign.
#[tactic(auto, using(crate::proofs::TokenLists::lexemes_head))]
fn field_head(tokens: &[Token]) -> &[Token]
    ensures { lexemes result.now ≡ field_head (lexemes tokens.now) }
{
    &tokens[..head_len(tokens)]
}

/// Returns the tokens after the first equals sign, if there is one.
fn field_tail(tokens: &[Token]) -> Option<&[Token]>
    ensures { option_map (λ ts. lexemes ts.now) result ≡ field_tail (lexemes tokens.now) }
{
    let mut rest = tokens;
    while let [token, behind @ ..] = rest {
        if is_equals(token) {
            return Some(behind);
        }
        rest = behind;
    }
    None
}

/// Returns the access words of a field's head: all but its last two tokens.
#[tactic(auto, using(crate::proofs::TokenLists::lexemes_access))]
fn field_access(head: &[Token]) -> &[Token]
    ensures { lexemes result.now ≡ field_access (lexemes head.now) }
{
    &head[..head.len().saturating_sub(2)]
}

/// Returns the token before the last of a field's head.
#[tactic(auto, using(crate::proofs::TokenLists::lexemes_length))]
fn field_name_at(head: &[Token]) -> Option<&Lexeme>
    ensures { option_map (λ l. l.now) result ≡ field_name_at (lexemes head.now) }
{
    if head.len() >= 2 {
        operand(head, head.len() - 2)
    } else {
        None
    }
}

/// Judges the constant of a field, whose descriptor is the last token of the head.
fn field_constant<'a>(head: &[Token], tail: Option<&'a [Token]>) -> Judged<Option<LentConstant<'a>>>
    ensures { map_ok (λ c. option_map constant_of c) result ≡ constant_in
        (word_or_none (last_of (lexemes head.now))) (option_map (λ ts. lexemes ts.now) tail.entry) }
{
    constant_in(word_or_none(last_of(head)), tail)
}

/// Judges the descriptor and the constant of a field.
#[tactic(auto, using(jasmin_operands::proofs::Judgements::said_both))]
fn field_type<'a>(
    head: &'a [Token],
    tail: Option<&'a [Token]>,
) -> Judged<(&'a [u16], Option<LentConstant<'a>>)>
    ensures { let last = last_of (lexemes head.now) in
        map_ok (λ p. (p.0.now, option_map constant_of p.1)) result ≡ both (field_descriptor_at last)
        (constant_in (word_or_none last) (option_map (λ ts. lexemes ts.now) tail.entry)) }
{
    both(
        field_descriptor_at(last_of(head)),
        field_constant(head, tail),
    )
}

/// Judges the name, the descriptor and the constant of a field.
#[tactic(auto, using(jasmin_operands::proofs::Judgements::said_both))]
fn field_operands<'a>(head: &'a [Token], tail: Option<&'a [Token]>) -> Judged<FieldParts<'a>>
    ensures { let last = last_of (lexemes head.now) in
        map_ok (λ p. (p.0.now, (p.1.0.now, option_map constant_of p.1.1))) result
        ≡ both (name_at (field_name_at (lexemes head.now))) (both (field_descriptor_at last)
        (constant_in (word_or_none last) (option_map (λ ts. lexemes ts.now) tail.entry))) }
{
    both(name_at(field_name_at(head)), field_type(head, tail))
}

/// Judges all operands of a field, and returns those after its access words.
#[tactic(auto, using(jasmin_operands::proofs::Judgements::said_unless))]
fn field_parts<'a>(head: &'a [Token], tail: Option<&'a [Token]>) -> Judged<FieldParts<'a>>
    ensures { let last = last_of (lexemes head.now) in
        map_ok (λ p. (p.0.now, (p.1.0.now, option_map constant_of p.1.1))) result
        ≡ unless (both (name_at (field_name_at (lexemes head.now))) (both (field_descriptor_at last)
        (constant_in (word_or_none last) (option_map (λ ts. lexemes ts.now) tail.entry))))
        (access_words field_words (field_access (lexemes head.now))) }
{
    unless(
        field_operands(head, tail),
        access_words(AccessWords::Field, field_access(head)),
    )
}

/// Judges `.field ACCESS NAME DESCRIPTOR` with an optional `= VALUE`.
#[tactic(auto, unfolding(jasmin::specs::Statements::field_line))]
pub(crate) fn field_line(alloc: Global, tokens: &[Token]) -> Result<Statement, LineFault>
    ensures { Says result (field_line (lexemes tokens.now)) }
{
    let head = field_head(tokens);
    let (name, (descriptor, constant)) = field_parts(head, field_tail(tokens))?;
    Ok(Statement::Field(FieldLine {
        access: flags_in(AccessWords::Field, field_access(head)),
        name: copied_text(alloc, name)?,
        descriptor: copied_text(alloc, descriptor)?,
        constant: constant_if(alloc, constant)?,
    }))
}
