//! Writes the text of a Jasmin source's tree, one statement on each line. If words can spell all names of the tree, the
//! lines of the text are those of the definition.
#![tactic(auto)]

mod access;
mod class;
mod code;
mod member;
mod mnemonic;
mod names;
mod opcodes;
mod printable;
mod text;
mod word;

pub use printable::is_printable;
pub use text::text_of;
