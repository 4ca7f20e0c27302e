//! Reads a line of a source as tokens.
#![tactic(auto)]

mod fault;
mod space;
mod text;
mod token_list;
mod units;
mod word;

pub use fault::LexFault;
pub use jasmin::token::{Lexeme, Token};
pub use token_list::tokens;
