//! Runs a program, keeps only the end, and judges the run.

ghost use Rattle.std.specs.Prelude.{◌≡◌, OnErr};
ghost use Rattle.judge.specs.Runs.{IsProgramRunOf, IsRunOf};

use crate::fault::JudgeFault;
use crate::reading::program_of;
use atom_spec::Spec;
use inputs::Input;
use jvms_machine::machine::{Entry, Limits};
use program::Program;
use program_runs::runs::Ending;
use program_runs::schedule::Chooser;
use program_runs::{Judgement, ProgramFault, check_program, run_program};
use std::alloc::Global;
use turn_limit::TurnLimit;

/// The end of a run, and its judgement if there is a specification.
#[derive(Debug, Drop)]
pub struct RunSummary {
    pub ending: Ending,
    pub judgement: Option<Judgement>,
}

/// Runs a program, and judges the run if there is a specification.
fn run_and_check(
    alloc: Global,
    program: &Program,
    limits: Limits,
    entry: &Entry,
    chooser: &mut Chooser,
    most: TurnLimit,
    spec: Option<Spec>,
) -> Result<RunSummary, ProgramFault>
    ensures run { IsProgramRunOf (λ run. run.ending) (λ run. run.judgement)
        spec most chooser.old chooser.new limits program.now entry.now result }
{
    let Some(spec) = spec else {
        let ending = run_program(alloc, program, limits, entry, chooser, most.turns())?;
        return Ok(RunSummary {
            ending,
            judgement: None,
        });
    };
    let run = check_program(alloc, program, limits, entry, chooser, most, spec)?;
    Ok(RunSummary {
        ending: run.ending,
        judgement: Some(run.judgement),
    })
}

/// Runs the program of class files and sources. The chooser may have moved even if the result is a fault.
#[tactic(auto, using(crate::proofs::Faults::not_run), unfolding(crate::specs::Shown::run_judged, crate::specs::Shown::chooser_left))]
fn run_inputs(
    alloc: Global,
    inputs: &[Input],
    limits: Limits,
    entry: &Entry,
    chooser: &mut Chooser,
    most: TurnLimit,
    spec: Option<Spec>,
) -> Result<RunSummary, JudgeFault>
    ensures { IsRunOf (λ run. run.ending) (λ run. run.judgement)
        spec most chooser.old chooser.new limits inputs.now entry.now result }
{
    let program = program_of(alloc, inputs)?;
    let run = run_and_check(alloc, &program, limits, entry, chooser, most, spec)?;
    Ok(run)
}

/// Runs the program of class files and sources from its entry on, and judges the run by the specification, if there is
/// one. It doesn't keep choices, outcomes and items, so they take no memory however long the run is.
///
/// # Errors
///
/// Those of `judge`. A fault leaves the chooser unchanged.
pub fn run(
    alloc: Global,
    inputs: &[Input],
    limits: Limits,
    entry: &Entry,
    chooser: &mut Chooser,
    most: TurnLimit,
    spec: Option<Spec>,
) -> Result<RunSummary, JudgeFault>
    // How the run ends, its judgement and the chooser after it are those of the run that `judge` returns. A fault is
    // returned only if its condition holds.
    ensures run { IsRunOf (λ run. run.ending) (λ run. run.judgement)
        spec most chooser.old chooser.new limits inputs.now entry.now result }
    // A fault leaves the chooser unchanged.
    ensures kept { OnErr result (chooser.new ≡ chooser.old) }
{
    let mut moved = chooser.copy()?;
    let run = run_inputs(alloc, inputs, limits, entry, &mut moved, most, spec)?;
    *chooser = moved;
    Ok(run)
}
