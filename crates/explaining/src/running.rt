//! Runs a program and explains the run.

ghost use Rattle.std.specs.Prelude.{◌≡◌, IfOk, OnErr, Ok};
ghost use Rattle.std.specs.String.{string_bytes};
ghost use Rattle.judge.specs.Runs.{IsProgramRunOf, IsRunOf};
ghost use Rattle.explaining.specs.Explanations.{explanation_of_inputs, program_explanation};

use crate::judging::explain_items;
use crate::replay::replay;
use atom_spec::Spec;
use inputs::Input;
use judge::{JudgeFault, classes_of, program_of};
use jvms_machine::machine::{Entry, Limits};
use program::Program;
use program_runs::{Judgement, ProgramFault, trace_program};
use runs::Ending;
use schedule::Chooser;
use source_lines::SourceFiles;
use std::alloc::Global;
use turn_limit::TurnLimit;

/// The end of a run, its judgement if there is a specification, and the lines that explain it.
#[derive(Debug, Drop)]
pub struct ExplainedRun {
    pub ending: Ending,
    pub judgement: Option<Judgement>,
    /// The explanation. It has the lines of the cycle, if there is one, where its events are, and the lines of the
    /// specification that match no method. It ends with where uncaught exceptions were thrown, and with the threads if
    /// none can continue.
    pub explanation: String,
}

/// Runs a program, judges the run if there is a specification, and explains it.
fn explain_program(
    alloc: Global,
    program: &Program,
    sources: &SourceFiles,
    limits: Limits,
    entry: &Entry,
    chooser: &mut Chooser,
    most: TurnLimit,
    spec: Option<Spec>,
) -> Result<ExplainedRun, ProgramFault>
    ensures run { IsProgramRunOf (λ run. run.ending) (λ run. run.judgement)
        spec most chooser.old chooser.new limits program.now entry.now result }
    ensures explained { IfOk result
        (λ run. program_explanation sources.now.first sources.now.files.now spec run.judgement
        most chooser.old limits program.now entry.now ≡ Ok (string_bytes run.explanation)) }
{
    program.program_invariant();
    let traced = trace_program(alloc, program, limits, entry, chooser, most.turns())?;
    let choices = traced.choices.as_slice();
    let Ok(replayed) = replay(
        alloc,
        program,
        sources,
        limits,
        entry,
        choices,
        &traced.ending,
    ) else {
        return Err(ProgramFault::Memory);
    };
    let events = replayed.events.as_slice();
    let explained = explain_items(alloc, program, sources, spec, traced.trace.items(), events)?;
    let mut explanation = explained.text;
    explanation.push_str(replayed.lines.as_str())?;
    Ok(ExplainedRun {
        ending: traced.ending,
        judgement: explained.judgement,
        explanation,
    })
}

/// Runs the program of class files and sources, and explains the run. The chooser may have moved even if the result is
/// a fault.
#[tactic(auto, using(judge::proofs::Faults::not_run), unfolding(judge::specs::Shown::run_judged, judge::specs::Shown::chooser_left, crate::specs::Explanations::explanation_of_inputs))]
fn explain_inputs(
    alloc: Global,
    inputs: &[Input],
    limits: Limits,
    entry: &Entry,
    chooser: &mut Chooser,
    most: TurnLimit,
    spec: Option<Spec>,
) -> Result<ExplainedRun, JudgeFault>
    ensures run { IsRunOf (λ run. run.ending) (λ run. run.judgement)
        spec most chooser.old chooser.new limits inputs.now entry.now result }
    ensures explained { IfOk result (λ run.
        explanation_of_inputs spec run.judgement most chooser.old limits inputs.now entry.now
        ≡ Ok (string_bytes run.explanation)) }
{
    let program = program_of(alloc, inputs)?;
    // The inputs are classes, because they make a program.
    let Ok(files) = classes_of(alloc, inputs) else {
        return Err(JudgeFault::Memory);
    };
    let sources = SourceFiles::new(program.classes(), files.as_slice());
    let run = explain_program(
        alloc, &program, &sources, limits, entry, chooser, most, spec,
    )?;
    Ok(run)
}

/// Runs the program of class files and sources from its entry on, judges the run by the specification, if there is one,
/// and explains it. It keeps choices and items, and takes the turns twice. The second time yields the turn of each
/// event.
///
/// # Errors
///
/// Those of `judge`. A fault leaves the chooser unchanged.
pub fn run_explained(
    alloc: Global,
    inputs: &[Input],
    limits: Limits,
    entry: &Entry,
    chooser: &mut Chooser,
    most: TurnLimit,
    spec: Option<Spec>,
) -> Result<ExplainedRun, JudgeFault>
    // How the run ends, its judgement and the chooser after it are those of the run that `judge` returns. A fault is
    // returned only if its condition holds.
    ensures run { IsRunOf (λ run. run.ending) (λ run. run.judgement)
        spec most chooser.old chooser.new limits inputs.now entry.now result }
    // The explanation is that of the verdict's cycle, on the items of that run with their turns and places, and of the
    // threads of the machine after the run.
    ensures explained { IfOk result (λ run.
        explanation_of_inputs spec run.judgement most chooser.old limits inputs.now entry.now
        ≡ Ok (string_bytes run.explanation)) }
    // A fault leaves the chooser unchanged.
    ensures kept { OnErr result (chooser.new ≡ chooser.old) }
{
    let mut moved = chooser.copy()?;
    let run = explain_inputs(alloc, inputs, limits, entry, &mut moved, most, spec)?;
    *chooser = moved;
    Ok(run)
}
