//! `campaign`: runs a program under many schedules.

use crate::files::Files;
use crate::limits::DEFAULT_LIMITS;
use crate::progress::Progress;
use crate::reading::{read_inputs, read_spec};
use crate::refusal::Refusal;
use crate::summary::{JobSchedules, SameWords, summary_of};
use crate::terminal::Terminal;
use campaigning::{Choosing, Gate, OpenGate, Plan, Table, default_span, write_table};
use command_line::{CampaignWords, ProgramNames, ProgramWords};
use inputs::Input;
use judge::program_of;
use jvms_machine::machine::Status;
use needs::unmatched_text;
use std::alloc::{AllocError, Global};
use std::rt::Clock;
use std::sync::Wait;
use std::thread::Threads;
use trace::ByteOut;

/// The inputs of a campaign: the names of its words, the plan and the FILEs.
#[derive(Drop)]
struct CampaignParts<'w> {
    names: ProgramNames<'w>,
    plan: Plan,
    inputs: Vec<Input>,
}

/// Returns how the jobs choose. If the words have a depth, the priorities change over the turns of the default's run.
fn choosing_of<'w>(
    alloc: Global,
    words: &CampaignWords<'w>,
    inputs: &[Input],
) -> Result<Choosing, Refusal<'w>> {
    let Some(depth) = words.depth else {
        return Ok(Choosing::Random);
    };
    let program = &words.program;
    match default_span(alloc, inputs, DEFAULT_LIMITS, &program.entry, words.most) {
        Ok(turns) => Ok(Choosing::Priorities { depth, turns }),
        Err(fault) => Err(Refusal::of_judge(&program.names, fault)),
    }
}

/// Reads the files that the words of a campaign name: first the specification, then the FILEs.
fn read_campaign<'w, F: Files>(
    alloc: Global,
    words: CampaignWords<'w>,
    files: &mut F,
) -> Result<CampaignParts<'w>, Refusal<'w>> {
    let spec = read_spec(alloc, files, words.spec)?;
    let inputs = read_inputs(alloc, files, words.program.names.files.as_slice())?;
    let choosing = choosing_of(alloc, &words, inputs.as_slice())?;
    let ProgramWords { entry, names } = words.program;
    let plan = Plan {
        entry,
        limits: DEFAULT_LIMITS,
        jobs: words.jobs,
        first: words.first,
        seed: words.seed,
        choosing,
        most: words.most,
        spec,
        stop: words.stop,
    };
    Ok(CampaignParts {
        names,
        plan,
        inputs,
    })
}

/// Runs the jobs, and prints the table.
fn print_table<'w, G: Gate + Sync, R: Threads + Wait + Sync, W: ByteOut>(
    rt: &R,
    alloc: Global,
    parts: &CampaignParts<'w>,
    workers: u64,
    gate: &G,
    output: &mut W,
) -> Result<Table, Refusal<'w>> {
    let inputs = parts.inputs.as_slice();
    match write_table(rt, alloc, inputs, &parts.plan, workers, gate, output) {
        Ok(table) => Ok(table),
        Err(fault) => Err(Refusal::of_campaign(&parts.names, fault)),
    }
}

/// Runs the jobs, and prints the table. At a terminal it also shows how many jobs are done.
fn run_jobs<'w, R: Clock + Eprint + Threads + Wait + Sync, W: ByteOut>(
    rt: &R,
    alloc: Global,
    parts: &CampaignParts<'w>,
    workers: u64,
    output: &mut W,
    terminal: Terminal,
) -> Result<Table, Refusal<'w>> {
    if terminal.errors {
        let progress = Progress::new(rt, parts.plan.jobs);
        print_table(rt, alloc, parts, workers, &progress, output)
    } else {
        print_table(rt, alloc, parts, workers, &OpenGate, output)
    }
}

/// Returns whether all jobs are atomic and finished.
pub(crate) fn is_good(table: &Table) -> bool {
    for job in &table.results {
        if job.atomicity.has_cycle() || job.status != Status::Finished {
            return false;
        }
    }
    true
}

/// Returns a line for each line of the specification that matches no method.
fn unmatched_lines(alloc: Global, parts: &CampaignParts<'_>) -> Result<String, AllocError> {
    match program_of(alloc, parts.inputs.as_slice()) {
        Ok(program) => unmatched_text(alloc, &program, parts.plan.spec.lines()),
        // The jobs have run, so only memory for the program may be missing.
        Err(_) => Ok(String::new(alloc)),
    }
}

/// Prints the table of a campaign. At a terminal, or if the words ask for it, it prints a summary too.
pub(crate) fn perform_campaign<
    'w,
    R: Clock + Eprint + Threads + Wait + Sync,
    F: Files,
    W: ByteOut,
    E: ByteOut,
>(
    rt: &R,
    alloc: Global,
    words: CampaignWords<'w>,
    files: &mut F,
    output: &mut W,
    errors: &mut E,
    terminal: Terminal,
) -> Result<u8, Refusal<'w>> {
    let (spec, seed, most) = (words.spec, words.seed, words.most_text);
    let workers = words.workers;
    let is_summed = words.summary || terminal.errors;
    let parts = read_campaign(alloc, words, files)?;
    let table = run_jobs(rt, alloc, &parts, workers, output, terminal)?;
    if is_summed {
        let same = SameWords {
            names: &parts.names,
            most,
            is_shown: terminal.errors,
        };
        let schedules = JobSchedules {
            first: parts.plan.first,
            seed,
            choosing: parts.plan.choosing,
        };
        errors.write_all(unmatched_lines(alloc, &parts)?.as_bytes())?;
        let summary = summary_of(alloc, same, spec, &schedules, &table)?;
        errors.write_all(summary.as_bytes())?;
    }
    Ok(u8::from(!is_good(&table)))
}
