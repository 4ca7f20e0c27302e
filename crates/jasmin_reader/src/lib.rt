//! Reads a Jasmin source line by line, and returns its syntax tree or its first faulty line.
#![tactic(auto)]

mod added;
mod fault;
mod in_method;
mod line;
mod member;
mod members;
mod noted;
mod once;
mod open;
mod place;
mod source;
mod switch;
mod written;

pub use fault::SourceFault;
pub use jasmin::statement::Flaw;
pub use written::{Source, read};
