//! The operand of `.catch` that names what a handler catches.

ghost use Rattle.std.specs.Prelude.{◌≡◌};
ghost use Rattle.std.specs.Option.{option_map};
ghost use Rattle.jasmin.specs.Judgements.{map_ok};
ghost use Rattle.jasmin.specs.Operands.{caught_at};
ghost use Rattle.jasmin_operands.specs.Views.{caught_of};

use crate::judgement::Judged;
use crate::words::word_at;
use descriptor::{is_class_entry_name, is_text};
use jasmin::statement::Flaw;
use jasmin::token::Lexeme;

/// The exceptions that a `.catch` names, borrowed from its line.
#[derive(Clone, Copy)]
pub enum CaughtName<'a> {
    /// `all`.
    All,
    /// A class's name or an array's descriptor.
    Class(&'a [u16]),
}

/// Judges a place that requires `all`, a class's name or an array's descriptor.
///
/// # Errors
///
/// Returns `Operand` if there is no word, and `Name` if the word is none of these.
pub fn caught_at(lexeme: Option<&Lexeme>) -> Judged<CaughtName<'_>>
    ensures { map_ok caught_of result ≡ caught_at (option_map (λ l. l.now) lexeme.entry) }
{
    let word = word_at(lexeme)?;
    if is_text("all", word) {
        Ok(CaughtName::All)
    } else if is_class_entry_name(word) {
        Ok(CaughtName::Class(word))
    } else {
        Err(Flaw::Name)
    }
}
