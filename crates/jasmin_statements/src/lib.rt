//! Judges one line of a source: its first tokens give its kind, and its operands the statement. Each place is judged by
//! itself, and the line's fault is the one of the least number.
#![tactic(auto)]

mod class_lines;
mod code_lines;
mod directives;
mod field_constant;
mod field_line;
mod kinds;
mod method_lines;
mod mnemonics;
mod places;
mod statement;
mod switch_lines;

pub use kinds::kind_of;
pub use statement::statement_of;
