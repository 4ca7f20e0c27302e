//! Finds the kind of a line by its first tokens.

ghost use Rattle.std.specs.Prelude.{◌≡◌, ◌∷◌, ℕ};
ghost use Rattle.jvms_file.specs.Names.{begins_with};
ghost use Rattle.jasmin.specs.declared.statement.LineKind.{LineKind as Kind};
ghost use Rattle.jasmin.specs.Lexing.{lexemes};
ghost use Rattle.jasmin.specs.Judgements.{map_ok};
ghost use Rattle.jasmin.specs.LineKinds.{directive_named, directive_kind, instruction_kind, code_kind, is_default, switch_kind, other_kind, kind_of};
ghost use Rattle.jasmin_statements.specs.Kinds.{labelled_kind};

use crate::directives::directive_named;
use crate::mnemonics::opcode_named;
use descriptor::is_text;
use jasmin::statement::{Flaw, LineKind, OpenSwitch};
use jasmin::token::{Lexeme, Token};
use jasmin_operands::Judged;

/// The first unit of a directive's name.
const DOT: u16 = b'.' as u16;

/// Decides whether a word begins with a dot.
fn begins_with_dot(word: &[u16]) -> bool
    ensures { result ≡ begins_with 46 word.now }
{
    matches!(word, [DOT, ..])
}

/// Returns the kind of a line whose first token is a word that begins with a dot.
fn directive_kind(word: &[u16]) -> Judged<LineKind>
    ensures { result ≡ directive_kind (directive_named word.now) }
{
    match directive_named(word) {
        Some(directive) => Ok(LineKind::Directive(directive)),
        None => Err(Flaw::UnknownDirective),
    }
}

/// Returns the opcode that a token names.
fn opcode_at(token: &Token) -> Judged<u8>
    ensures { (make : ℕ → Kind) → map_ok make result ≡ instruction_kind make token.now.lexeme }
{
    match &token.lexeme {
        Lexeme::Word(word) => match opcode_named(word.as_slice()) {
            Some(code) => Ok(code),
            None => Err(Flaw::UnknownInstruction),
        },
        _ => Err(Flaw::UnknownInstruction),
    }
}

/// Returns the kind of a line that begins with a label, by the tokens after it.
fn labelled_kind(behind: &[Token]) -> Judged<LineKind>
    ensures { result ≡ labelled_kind (lexemes behind.now) }
{
    match behind.first() {
        None => Ok(LineKind::Label),
        Some(token) => Ok(LineKind::LabelledInstruction(opcode_at(token)?)),
    }
}

/// Returns the kind of a line whose instruction is this token.
fn instruction(token: &Token) -> Judged<LineKind>
    ensures { result ≡ instruction_kind (λ code. Kind.Instruction code) token.now.lexeme }
{
    Ok(LineKind::Instruction(opcode_at(token)?))
}

/// Returns the kind of a line of code that isn't empty. It has a label if its first token is a word and its second a
/// colon.
fn begun_kind(first: &Token, behind: &[Token]) -> Judged<LineKind>
    ensures { result ≡ code_kind (first.now.lexeme ∷ lexemes behind.now) }
{
    match &first.lexeme {
        Lexeme::Word(_) => match behind.split_first() {
            None => instruction(first),
            Some((second, rest)) => match &second.lexeme {
                Lexeme::Colon => labelled_kind(rest),
                Lexeme::Word(_) | Lexeme::Text(_) | Lexeme::Equals => instruction(first),
            },
        },
        Lexeme::Text(_) | Lexeme::Colon | Lexeme::Equals => instruction(first),
    }
}

/// Returns the kind of a line of code: a label, a label and an instruction, or an instruction.
fn code_kind(tokens: &[Token]) -> Judged<LineKind>
    ensures { result ≡ code_kind (lexemes tokens.now) }
{
    match tokens.split_first() {
        None => Ok(LineKind::Blank),
        Some((first, behind)) => begun_kind(first, behind),
    }
}

/// Decides whether the first token is the word `default`.
fn is_default(tokens: &[Token]) -> bool
    ensures { result ≡ is_default (lexemes tokens.now) }
{
    match tokens {
        [
            Token {
                lexeme: Lexeme::Word(word),
                ..
            },
            ..
        ] => is_text("default", word.as_slice()),
        _ => false,
    }
}

/// Returns the kind of a line of a switch. In a tableswitch, the word `default` and nothing else is a label.
fn switch_kind(switch: OpenSwitch, tokens: &[Token]) -> LineKind
    ensures { result ≡ switch_kind switch (lexemes tokens.now) }
{
    let is_label = matches!(switch, OpenSwitch::Table { next: _ }) && tokens.len() == 1;
    if is_default(tokens) && !is_label {
        LineKind::Default
    } else {
        LineKind::Case
    }
}

/// Returns the kind of a line without a directive.
fn other_kind(switch: OpenSwitch, tokens: &[Token]) -> Judged<LineKind>
    ensures { result ≡ other_kind switch (lexemes tokens.now) }
{
    match switch {
        OpenSwitch::None => code_kind(tokens),
        OpenSwitch::Table { next: _ } | OpenSwitch::Lookup { last: _ } => {
            if tokens.is_empty() {
                Ok(LineKind::Blank)
            } else {
                Ok(switch_kind(switch, tokens))
            }
        }
    }
}

/// Returns the kind of a line by its first tokens.
///
/// # Errors
///
/// Returns `UnknownDirective` if the first token is a word that begins with a dot but is no directive's name. Returns
/// `UnknownInstruction` if the token in an instruction's place is no mnemonic.
#[tactic(auto, unfolding(jasmin::specs::LineKinds::kind_of))]
pub fn kind_of(switch: OpenSwitch, tokens: &[Token]) -> Judged<LineKind>
    ensures { result ≡ kind_of switch (lexemes tokens.now) }
{
    let Some(first) = tokens.first() else {
        return other_kind(switch, tokens);
    };
    match &first.lexeme {
        Lexeme::Word(word) => {
            if begins_with_dot(word.as_slice()) {
                directive_kind(word.as_slice())
            } else {
                other_kind(switch, tokens)
            }
        }
        Lexeme::Text(_) | Lexeme::Colon | Lexeme::Equals => other_kind(switch, tokens),
    }
}
