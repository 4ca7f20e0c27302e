//! The tokens of a line of a source.

use shared_data::items::Items;

/// The kind of a token, with the UTF-16 code units of a word or a text.
#[derive(Debug, PartialEq, Eq, Drop)]
pub enum Lexeme {
    /// A run of units without white space, quotes, colons and equals signs.
    Word(Items<u16>),
    /// The units between quotes. Each escape is replaced by the unit that it denotes.
    Text(Items<u16>),
    Colon,
    Equals,
}

/// A token of a line, and its place: numbers of UTF-16 code units from the line's start.
#[derive(Debug, PartialEq, Eq, Drop)]
pub struct Token {
    pub lexeme: Lexeme,
    /// The place of its first unit.
    pub start: usize,
    /// The place after its last unit.
    pub end: usize,
}
