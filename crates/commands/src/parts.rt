//! The files that the words of a run name.

use crate::files::Files;
use crate::reading::{read_inputs, read_spec, read_text};
use crate::refusal::Refusal;
use atom_spec::Spec;
use command_line::RunWords;
use inputs::Input;
use schedule::Chooser;
use std::alloc::Global;

/// Returns the text of a file without the end of its last line.
fn read_line<'w, F: Files>(files: &mut F, file: &'w str) -> Result<String, Refusal<'w>> {
    let mut text = read_text(files, file)?;
    if text.as_str().ends_with('\n') {
        let _ = text.pop();
    }
    Ok(text)
}

/// Returns the chooser of the schedule that a word spells, or a file: `@FILE`.
pub(crate) fn chooser_of<'w, F: Files>(
    alloc: Global,
    files: &mut F,
    word: &'w str,
) -> Result<Chooser, Refusal<'w>> {
    let chooser = match word.strip_prefix('@') {
        Some(file) => Chooser::parse(alloc, read_line(files, file)?.as_str()),
        None => Chooser::parse(alloc, word),
    };
    chooser.map_err(|fault| Refusal::of_schedule(word, fault))
}

/// Returns the specification that the words name, if they name one.
pub(crate) fn spec_of<'w, F: Files>(
    alloc: Global,
    files: &mut F,
    name: Option<&'w str>,
) -> Result<Option<Spec>, Refusal<'w>> {
    match name {
        Some(name) => Ok(Some(read_spec(alloc, files, name)?)),
        None => Ok(None),
    }
}

/// The inputs of a run: the chooser, the specification and the FILEs.
#[derive(Drop)]
pub(crate) struct RunParts {
    pub(crate) chooser: Chooser,
    pub(crate) spec: Option<Spec>,
    pub(crate) inputs: Vec<Input>,
}

/// Reads the files that the words of a run name: first the schedule, then the specification, then the FILEs.
pub(crate) fn read_parts<'w, F: Files>(
    alloc: Global,
    words: &RunWords<'w>,
    files: &mut F,
) -> Result<RunParts, Refusal<'w>> {
    Ok(RunParts {
        chooser: chooser_of(alloc, files, words.schedule)?,
        spec: spec_of(alloc, files, words.spec)?,
        inputs: read_inputs(alloc, files, words.program.names.files.as_slice())?,
    })
}
