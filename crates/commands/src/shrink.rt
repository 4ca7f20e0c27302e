//! `shrink`: leaves out departures of a schedule whose run fails.

use crate::explore::{DEFAULT_MOST, ExploreParts, read_exploration, spec_or_empty, summary_of};
use crate::files::Files;
use crate::parts::chooser_of;
use crate::refusal::Refusal;
use crate::summary::SameWords;
use crate::terminal::Terminal;
use command_line::ShrinkWords;
use schedule::Chooser;
use shrinkings::{ShrunkRun, write_shrunk};
use std::alloc::Global;
use trace::ByteOut;

/// The words of a search that its parts don't have.
#[derive(Clone, Copy)]
struct SearchWords<'w> {
    /// The schedule, as spelled in the words.
    schedule: &'w str,
    /// The file with the specification.
    spec: Option<&'w str>,
    /// The word for the maximum number of turns.
    most: &'w str,
    /// The maximum number of runs.
    runs: u64,
}

/// Leaves out departures, and prints the run of those that are left.
fn print_shrunk<'w, W: ByteOut>(
    alloc: Global,
    words: SearchWords<'w>,
    parts: &ExploreParts<'w>,
    mut chooser: Chooser,
    output: &mut W,
) -> Result<ShrunkRun, Refusal<'w>> {
    let inputs = parts.inputs.as_slice();
    let runs = words.runs.max(1);
    match write_shrunk(alloc, inputs, &parts.plan, &mut chooser, runs, output) {
        Ok(shrunk) => Ok(shrunk),
        Err(fault) => Err(Refusal::of_shrinking(&parts.names, words.schedule, fault)),
    }
}

/// Prints the summary: the lines of the specification that match no method, and the commands for the run that is left.
fn print_summary<'w, E: ByteOut>(
    alloc: Global,
    words: SearchWords<'w>,
    parts: &ExploreParts<'w>,
    shrunk: &ShrunkRun,
    errors: &mut E,
    terminal: Terminal,
) -> Result<(), Refusal<'w>> {
    let same = SameWords {
        names: &parts.names,
        most: Some(words.most),
        is_shown: terminal.errors,
    };
    let summary = summary_of(alloc, parts, words.spec, same, Some(&shrunk.run))?;
    errors.write_all(summary.as_bytes())?;
    Ok(())
}

/// Prints the run of the departures that are left of a schedule's. At a terminal, or if the words ask for it, it prints a
/// summary too. Returns 0 if no single departure can be left out, else 1.
pub(crate) fn perform_shrink<'w, F: Files, W: ByteOut, E: ByteOut>(
    alloc: Global,
    words: ShrinkWords<'w>,
    files: &mut F,
    output: &mut W,
    errors: &mut E,
    terminal: Terminal,
) -> Result<u8, Refusal<'w>> {
    let search = SearchWords {
        schedule: words.schedule,
        spec: words.spec,
        most: words.most_text.unwrap_or(DEFAULT_MOST),
        runs: words.runs,
    };
    let is_summed = words.summary || terminal.errors;
    let chooser = chooser_of(alloc, files, words.schedule)?;
    let within = spec_or_empty(alloc, None)?;
    let parts = read_exploration(alloc, words.program, words.spec, words.most, within, files)?;
    let shrunk = print_shrunk(alloc, search, &parts, chooser, output)?;
    if is_summed {
        print_summary(alloc, search, &parts, &shrunk, errors, terminal)?;
    }
    Ok(u8::from(!shrunk.is_least))
}
