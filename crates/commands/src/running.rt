//! Performs `eval`, `run` and `trace`.

use crate::choices::TraceText;
use crate::eval::eval;
use crate::files::Files;
use crate::lines::ending_lines;
use crate::parts::{RunParts, read_parts};
use crate::reading::read_inputs;
use crate::refusal::Refusal;
use crate::run::run;
use crate::tracing::write_trace;
use command_line::{ProgramWords, RunWords};
use explaining::ExplainedRun;
use judge::Judged;
use jvms_machine::machine::Status;
use program_runs::Judgement;
use report::verdict_line;
use runs::Ending;
use std::alloc::{AllocError, Global};
use trace::ByteOut;
use velodrome::verdict::Verdict;

/// Returns whether a run finished without an uncaught exception.
fn is_whole(ending: &Ending) -> bool {
    ending.status == Status::Finished && ending.uncaught.as_slice().is_empty()
}

/// Prints how a run of `eval` ended, if there is no result.
fn print_ending<'w, E: ByteOut>(
    alloc: Global,
    ending: &Ending,
    errors: &mut E,
) -> Result<u8, Refusal<'w>> {
    if ending.result.is_none() {
        errors.write_all(ending_lines(alloc, ending)?.as_slice())?;
    }
    Ok(u8::from(!is_whole(ending)))
}

/// Performs `eval`: prints the result, or how the run ended if there is none.
pub(crate) fn perform_eval<'w, F: Files, W: ByteOut, E: ByteOut>(
    alloc: Global,
    words: &ProgramWords<'w>,
    files: &mut F,
    output: &mut W,
    errors: &mut E,
) -> Result<u8, Refusal<'w>> {
    let inputs = read_inputs(alloc, files, words.names.files.as_slice())?;
    match eval(alloc, inputs.as_slice(), &words.entry, output) {
        Ok(ending) => print_ending(alloc, &ending, errors),
        Err(fault) => Err(Refusal::of_run(&words.names, fault)),
    }
}

/// Returns whether no cycle was found, also if none was searched for.
fn is_without_cycle(judgement: &Option<Judgement>) -> bool {
    match judgement {
        Some(judgement) => !is_cycle(&judgement.verdict),
        None => true,
    }
}

pub(crate) fn is_cycle(verdict: &Verdict) -> bool {
    matches!(verdict, Verdict::Cycle { .. })
}

/// Returns the lines of a run: how it ended, its verdict, and what explains it.
fn run_lines(alloc: Global, run: &ExplainedRun) -> Result<Vec<u8>, AllocError> {
    let mut lines = ending_lines(alloc, &run.ending)?;
    if let Some(judgement) = &run.judgement {
        let line = verdict_line(alloc, &judgement.verdict, judgement.counts)?;
        lines.extend_from_slice(line.as_bytes())?;
    }
    lines.extend_from_slice(run.explanation.as_bytes())?;
    Ok(lines)
}

/// Runs a program, and prints its output.
fn run_parts<'w, W: ByteOut>(
    alloc: Global,
    words: &RunWords<'w>,
    parts: &mut RunParts,
    output: &mut W,
) -> Result<ExplainedRun, Refusal<'w>> {
    let spec = parts.spec.take();
    let inputs = parts.inputs.as_slice();
    let chooser = &mut parts.chooser;
    let entry = &words.program.entry;
    let explains = words.explains;
    match run(
        alloc, inputs, entry, chooser, words.most, spec, explains, output,
    ) {
        Ok(run) => Ok(run),
        Err(fault) => Err(Refusal::of_run(&words.program.names, fault)),
    }
}

/// Prints how a run ended, its verdict if there is a specification, and what explains the run.
fn print_run<'w, E: ByteOut>(
    alloc: Global,
    run: &ExplainedRun,
    errors: &mut E,
) -> Result<u8, Refusal<'w>> {
    errors.write_all(run_lines(alloc, run)?.as_slice())?;
    let is_good = is_whole(&run.ending) && is_without_cycle(&run.judgement);
    Ok(u8::from(!is_good))
}

/// Performs `run`: prints the output of the program, how the run ended and, with a specification, whether it is atomic.
pub(crate) fn perform_run<'w, F: Files, W: ByteOut, E: ByteOut>(
    alloc: Global,
    words: &RunWords<'w>,
    files: &mut F,
    output: &mut W,
    errors: &mut E,
) -> Result<u8, Refusal<'w>> {
    let mut parts = read_parts(alloc, words, files)?;
    let run = run_parts(alloc, words, &mut parts, output)?;
    print_run(alloc, &run, errors)
}

/// Runs a program, and prints what its threads did, or the choices.
fn trace_parts<'w, W: ByteOut>(
    alloc: Global,
    words: &RunWords<'w>,
    parts: &mut RunParts,
    output: &mut W,
) -> Result<Judged, Refusal<'w>> {
    let inputs = parts.inputs.as_slice();
    let chooser = &mut parts.chooser;
    let entry = &words.program.entry;
    let kind = if words.choices {
        TraceText::Choices
    } else {
        TraceText::Items
    };
    match write_trace(alloc, inputs, entry, chooser, words.most, kind, output) {
        Ok(judged) => Ok(judged),
        Err(fault) => Err(Refusal::of_run(&words.program.names, fault)),
    }
}

/// Performs `trace`: prints what the threads did, or the choices. Its words name no specification.
pub(crate) fn perform_trace<'w, F: Files, W: ByteOut>(
    alloc: Global,
    words: &RunWords<'w>,
    files: &mut F,
    output: &mut W,
) -> Result<u8, Refusal<'w>> {
    let mut parts = read_parts(alloc, words, files)?;
    let judged = trace_parts(alloc, words, &mut parts, output)?;
    Ok(u8::from(!is_whole(&judged.run.ending)))
}
