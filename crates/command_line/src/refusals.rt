//! The meanings of the codes of refusals. The texts agree with docs/REFUSALS.md, and `bench/refusals.py` compares them.

mod class_files;
mod runs;
mod sources;
mod words;

use class_files::CLASS_FILES;
use runs::RUNS;
use sources::SOURCES;
use words::WORDS;

/// Returns the text of a code in a table, or `None` if the table doesn't have the code.
fn text_in(table: &[(&'static str, &'static str)], code: &str) -> Option<&'static str> {
    for (name, text) in table {
        if *name == code {
            return Some(*text);
        }
    }
    None
}

/// Returns the text of `jvmx help CODE`, or `None` if no refusal has this code.
pub(crate) fn explanation_of(code: &str) -> Option<&'static str> {
    text_in(&WORDS, code)
        .or(text_in(&CLASS_FILES, code))
        .or(text_in(&SOURCES, code))
        .or(text_in(&RUNS, code))
}
