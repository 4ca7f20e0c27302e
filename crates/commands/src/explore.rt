//! `explore`: runs a program under all schedules with few departures from a default.

ghost use Rattle.std.specs.Prelude.{◌<◌, ◌≤◌};

use crate::files::Files;
use crate::limits::DEFAULT_LIMITS;
use crate::parts::spec_of;
use crate::progress::LevelProgress;
use crate::reading::read_inputs;
use crate::refusal::Refusal;
use crate::summary::{SameWords, failing_summary};
use crate::terminal::Terminal;
use atom_spec::{Spec, SpecFault};
use command_line::{ExploreWords, ProgramNames, ProgramWords};
use explorations::{Answer, Bounds, FailingRun, Observer, Part, Plan, Team, write_exploration};
use inputs::Input;
use judge::program_of;
use needs::unmatched_text;
use program::Program;
use std::alloc::{AllocError, Global};
use std::rt::Clock;
use std::slice;
use std::sync::Wait;
use std::thread::Threads;
use trace::ByteOut;
use turn_limit::TurnLimit;

/// The greatest number of departures.
const MOST_DEPARTURES: u64 = 16;

/// The maximum number of turns, as a word, without `--max`.
pub(crate) const DEFAULT_MOST: &str = "100000";

/// An observer who shows nothing.
#[derive(Clone, Copy)]
struct NoObserver;

impl Observer for NoObserver {
    fn begins(&self, _departures: u64, _jobs: u64) {}

    fn ran(&self, _runs: u64) {}

    fn ended(&self) {}
}

/// The inputs of an exploration, or of a search for a smaller schedule: the names of its words, the plan and the FILEs.
#[derive(Drop)]
pub(crate) struct ExploreParts<'w> {
    pub(crate) names: ProgramNames<'w>,
    pub(crate) plan: Plan,
    pub(crate) inputs: Vec<Input>,
}

/// How far an exploration goes, and the number of its workers.
#[derive(Clone, Copy)]
struct Effort {
    bounds: Bounds,
    workers: u64,
}

/// Returns a specification, or one without a line if there is none.
pub(crate) fn spec_or_empty<'w>(alloc: Global, spec: Option<Spec>) -> Result<Spec, Refusal<'w>> {
    match spec {
        Some(spec) => Ok(spec),
        None => Spec::read(alloc, "").map_err(|_| Refusal::Memory),
    }
}

/// Refuses a word that is no pattern, as a line of a specification with it is refused.
fn check_pattern<'w>(alloc: Global, word: &'w str) -> Result<(), Refusal<'w>> {
    if word.contains('\n') {
        let fault = SpecFault::Syntax { line: 1 };
        return Err(Refusal::Spec { file: word, fault });
    }
    let line = format!(in alloc; "atomic {word}")?;
    match Spec::read(alloc, line.as_str()) {
        Ok(spec) => {
            drop(spec);
            Ok(())
        }
        Err(fault) => Err(Refusal::Spec { file: word, fault }),
    }
}

/// Returns a line of a specification for each pattern, or the refusal of the first word that is none.
fn lines_within<'w>(alloc: Global, words: &[&'w str]) -> Result<Spec, Refusal<'w>> {
    let mut text = String::new(alloc);
    for word in words {
        check_pattern(alloc, *word)?;
        text.push_str("atomic ")?;
        text.push_str(*word)?;
        text.push('\n')?;
    }
    Spec::read(alloc, text.as_str()).map_err(|_| Refusal::Memory)
}

/// Reads the files that the words of an exploration name: first the specification, then the FILEs.
pub(crate) fn read_exploration<'w, F: Files>(
    alloc: Global,
    program: ProgramWords<'w>,
    spec: Option<&'w str>,
    most: TurnLimit,
    within: Spec,
    files: &mut F,
) -> Result<ExploreParts<'w>, Refusal<'w>> {
    let spec = spec_of(alloc, files, spec)?;
    let spec = spec_or_empty(alloc, spec)?;
    let inputs = read_inputs(alloc, files, program.names.files.as_slice())?;
    let ProgramWords { entry, names } = program;
    let plan = Plan {
        entry,
        limits: DEFAULT_LIMITS,
        most,
        spec,
        within,
        part: None,
    };
    Ok(ExploreParts {
        names,
        plan,
        inputs,
    })
}

/// Explores, and prints the answer.
fn print_answer<'w, O: Observer, R: Threads + Wait + Sync, W: ByteOut>(
    team: &Team<'_, R, O>,
    alloc: Global,
    parts: &ExploreParts<'w>,
    bounds: Bounds,
    output: &mut W,
) -> Result<Answer, Refusal<'w>>
    requires workers { 0 < team.now.workers }
    requires bounds { bounds.departures ≤ 16 }
{
    let inputs = parts.inputs.as_slice();
    match write_exploration(team, alloc, inputs, &parts.plan, bounds, output) {
        Ok(answer) => Ok(answer),
        Err(fault) => Err(Refusal::of_exploration(&parts.names, fault)),
    }
}

/// Explores, and prints the answer. At a terminal it also shows how many runs are made.
fn run_jobs<'w, R: Clock + Eprint + Threads + Wait + Sync, W: ByteOut>(
    rt: &R,
    alloc: Global,
    parts: &ExploreParts<'w>,
    effort: Effort,
    output: &mut W,
    terminal: Terminal,
) -> Result<Answer, Refusal<'w>>
    requires { effort.bounds.departures ≤ 16 }
{
    let bounds = effort.bounds;
    let workers = (effort.workers as usize).max(1);
    if terminal.errors {
        let progress = LevelProgress::new(rt);
        let observer = &progress;
        let team = Team {
            rt,
            workers,
            observer,
        };
        print_answer(&team, alloc, parts, bounds, output)
    } else {
        let observer = &NoObserver;
        let team = Team {
            rt,
            workers,
            observer,
        };
        print_answer(&team, alloc, parts, bounds, output)
    }
}

/// Appends a line for each pattern of `--within` that matches no method.
fn push_unmatched_patterns(
    alloc: Global,
    text: &mut String,
    program: &Program,
    plan: &Plan,
) -> Result<(), AllocError> {
    for line in plan.within.lines() {
        let unmatched = unmatched_text(alloc, program, slice::from_ref(line))?;
        if let Some(rest) = unmatched.as_str().strip_prefix("spec atomic ") {
            text.push_str("within ")?;
            text.push_str(rest)?;
        }
    }
    Ok(())
}

/// Returns a line for each line of the specification, and for each pattern of `--within`, that matches no method.
fn unmatched_lines(alloc: Global, parts: &ExploreParts<'_>) -> Result<String, AllocError> {
    match program_of(alloc, parts.inputs.as_slice()) {
        Ok(program) => {
            let mut text = unmatched_text(alloc, &program, parts.plan.spec.lines())?;
            push_unmatched_patterns(alloc, &mut text, &program, &parts.plan)?;
            Ok(text)
        }
        // The jobs have run, so only memory for the program may be missing.
        Err(_) => Ok(String::new(alloc)),
    }
}

/// Returns the summary: the lines of the specification and the patterns that match no method, and the commands for a run that
/// fails.
pub(crate) fn summary_of(
    alloc: Global,
    parts: &ExploreParts<'_>,
    spec: Option<&str>,
    same: SameWords<'_, '_>,
    failing: Option<&FailingRun>,
) -> Result<String, AllocError> {
    let mut summary = unmatched_lines(alloc, parts)?;
    if let Some(run) = failing {
        summary.push_str(failing_summary(alloc, same, spec, run)?.as_str())?;
    }
    Ok(summary)
}

/// Limits the runs of a plan to a part of them, if there is one.
fn limit_to(plan: &mut Plan, part: Option<Part>) {
    plan.part = part;
}

/// Prints the answer of an exploration. At a terminal, or if the words ask for it, it prints a summary too. Returns 0 if all is
/// covered, else 1.
pub(crate) fn perform_explore<
    'w,
    R: Clock + Eprint + Threads + Wait + Sync,
    F: Files,
    W: ByteOut,
    E: ByteOut,
>(
    rt: &R,
    alloc: Global,
    words: ExploreWords<'w>,
    files: &mut F,
    output: &mut W,
    errors: &mut E,
    terminal: Terminal,
) -> Result<u8, Refusal<'w>> {
    let effort = Effort {
        bounds: Bounds {
            departures: words.departures.min(MOST_DEPARTURES),
            runs: words.runs,
            all: words.all,
        },
        workers: words.workers,
    };
    let (spec, most) = (words.spec, words.most_text);
    let is_summed = words.summary || terminal.errors;
    let within = lines_within(alloc, words.within.as_slice())?;
    let mut parts = read_exploration(alloc, words.program, spec, words.most, within, files)?;
    limit_to(&mut parts.plan, words.part);
    let answer = run_jobs(rt, alloc, &parts, effort, output, terminal)?;
    if is_summed {
        let same = SameWords {
            names: &parts.names,
            most: Some(most.unwrap_or(DEFAULT_MOST)),
            is_shown: terminal.errors,
        };
        let summary = summary_of(alloc, &parts, spec, same, answer.failing.as_ref())?;
        errors.write_all(summary.as_bytes())?;
    }
    Ok(u8::from(!answer.is_covered))
}
