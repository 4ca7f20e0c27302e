//! The output of a program: an int or a long in decimal, a string in UTF-8, or null as its name. A line end may follow.
#![tactic(auto)]

mod characters;
mod line;

pub use characters::put_text;
pub use line::{put_int, put_line, put_line_end, put_long, put_null};
