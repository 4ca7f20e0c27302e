//! States laws about the definitions, each as the contract of a function with an empty body.

ghost use Rattle.std.specs.Prelude.{◌≡◌, ℕ, List, true, Some};
ghost use Rattle.jasmin.specs.declared.token.Token.{Token};
ghost use Rattle.jasmin.specs.Lexing.{Lexes, tokens_of};

/// Proves that a line from which tokens are read is spelled as those tokens, each at its place.
#[tactic(auto, using(crate::proofs::Tokens::lexed_is_spelled))]
pub fn lexed_tokens_spell_line()
    ensures { (line : List ℕ) (ts : List Token) → tokens_of line ≡ Some ts → Lexes true 0 line ts }
{}

/// Proves that a line that is spelled as tokens is read as those tokens. So no line is spelled as two lists of tokens.
#[tactic(auto, using(crate::proofs::Tokens::spelled_is_lexed))]
pub fn what_is_spelled_is_lexed()
    ensures { (line : List ℕ) (ts : List Token) → Lexes true 0 line ts → tokens_of line ≡ Some ts }
{}
