//! `picture`: draws a picture of a trace.

use crate::files::Files;
use crate::reading::{read_spec, read_text};
use crate::refusal::Refusal;
use atom_graph::Checker;
use command_line::PictureWords;
use pictures::{dot, sketch_of, svg};
use std::alloc::{AllocError, Global};
use trace::ByteOut;
use trace_check::fed_text;

/// Returns the picture of the trace that a checker was fed.
fn picture_of(alloc: Global, checker: &Checker, is_dot: bool) -> Result<String, AllocError> {
    let verdict = checker.verdict()?;
    let sketch = sketch_of(alloc, checker, &verdict)?;
    if is_dot {
        dot(alloc, checker, &sketch)
    } else {
        svg(alloc, checker, &sketch)
    }
}

/// Prints a picture of the trace of a file. The specification is read first.
pub(crate) fn perform_picture<'w, F: Files, W: ByteOut>(
    alloc: Global,
    words: &PictureWords<'w>,
    files: &mut F,
    output: &mut W,
) -> Result<u8, Refusal<'w>> {
    let spec = read_spec(alloc, files, words.spec)?;
    let text = read_text(files, words.trace)?;
    let checker = match fed_text(alloc, spec, text.as_str()) {
        Ok(checker) => checker,
        Err(fault) => return Err(Refusal::of_check(words.trace, fault)),
    };
    let picture = picture_of(alloc, &checker, words.is_dot)?;
    output.write_all(picture.as_bytes())?;
    Ok(0)
}
