//! Writes the choices of a run as a schedule.

ghost use Rattle.std.specs.Prelude.{◌≡◌, ◌++◌, IfOk, OnOk};
ghost use Rattle.std.specs.List.{flat_map};
ghost use Rattle.std.specs.String.{string_bytes};
ghost use Rattle.program_runs.specs.Shown.{view_of_traced};
ghost use Rattle.commands.specs.Choices.{choices_text, further_text, text_of, threads_text};

use jvms_machine::machine::ThreadId;
use program_runs::TracedRun;
use std::alloc::{AllocError, Global};

/// The kinds of text that `trace` prints.
#[derive(Clone, Copy, Debug, PartialEq, Eq)]
pub enum TraceText {
    /// The items: what the threads did.
    Items,
    /// The choices as a schedule: the threads that took the turns.
    Choices,
}

/// Appends threads after the first one of a list.
fn put_further(alloc: Global, text: &mut String, threads: &[ThreadId]) -> Result<(), AllocError>
    ensures { OnOk result
        (string_bytes text.new ≡ string_bytes text.old ++ flat_map further_text threads.now) }
{
    for thread in threads {
        let further = format!(in alloc; ",{thread}")?;
        text.push_str(further.as_str())?;
    }
    Ok(())
}

/// Appends threads, separated by commas.
fn put_threads(alloc: Global, text: &mut String, threads: &[ThreadId]) -> Result<(), AllocError>
    ensures { OnOk result
        (string_bytes text.new ≡ string_bytes text.old ++ threads_text threads.now) }
{
    let Some((thread, further)) = threads.split_first() else {
        return Ok(());
    };
    let first = format!(in alloc; "{thread}")?;
    text.push_str(first.as_str())?;
    put_further(alloc, text, further)
}

/// Returns the line of the schedule of these choices.
fn choices_text(alloc: Global, choices: &[ThreadId]) -> Result<String, AllocError>
    ensures { IfOk result (λ text. string_bytes text ≡ choices_text choices.now) }
{
    let mut text = String::from_str(alloc, "list:")?;
    put_threads(alloc, &mut text, choices)?;
    text.push_str("\n")?;
    Ok(text)
}

/// Returns the text of a run.
pub(crate) fn text_of(alloc: Global, kind: TraceText, run: &TracedRun) -> Result<String, AllocError>
    ensures { IfOk result (λ text. string_bytes text ≡ text_of kind (view_of_traced run.now)) }
{
    match kind {
        TraceText::Items => trace_text::write(alloc, &run.trace),
        TraceText::Choices => choices_text(alloc, run.choices.as_slice()),
    }
}
