//! Runs a program, keeps all its turns, and judges the run.

ghost use Rattle.std.specs.Prelude.{◌≡◌, length, IfOk, IfErr, OnOk, OnErr, Ok};
ghost use Rattle.judge.specs.Faults.{IsFault, NamesFile};
ghost use Rattle.judge.specs.Judgement.{IsJudgement};
ghost use Rattle.judge.specs.Shown.{chooser_left, run_judged};
ghost use Rattle.program_runs.specs.Shown.{view_of_traced};

use crate::fault::JudgeFault;
use crate::reading::program_of;
use crate::verdicts::judge_trace;
use atom_spec::Spec;
use inputs::Input;
use jvms_machine::machine::{Entry, Limits};
use program_runs::schedule::Chooser;
use program_runs::{Judgement, TracedRun, trace_program};
use std::alloc::Global;
use turn_limit::TurnLimit;

/// A run with the choices, outcomes and items of its turns, and its judgement if there is a specification.
#[derive(Debug, Drop)]
pub struct Judged {
    pub run: TracedRun,
    pub judgement: Option<Judgement>,
}

/// Runs the program of class files and sources, and judges the run. The chooser may have moved even if the result is a
/// fault.
#[tactic(auto, using(crate::proofs::Faults::not_run), unfolding(crate::specs::Shown::run_judged, crate::specs::Shown::chooser_left))]
fn run_and_judge(
    alloc: Global,
    inputs: &[Input],
    limits: Limits,
    entry: &Entry,
    chooser: &mut Chooser,
    most: TurnLimit,
    spec: Option<Spec>,
) -> Result<Judged, JudgeFault>
    ensures exact { IfOk result (λ j.
        run_judged most chooser.old limits inputs.now entry.now ≡ Ok (view_of_traced j.run)) }
    ensures judged { IfOk result (λ j. IsJudgement spec j.run.trace j.judgement) }
    ensures chooser { OnOk result
        (chooser_left most chooser.old limits inputs.now entry.now ≡ Ok chooser.new) }
    ensures fault { IfErr result (λ fault.
        IsFault fault (run_judged most chooser.old limits inputs.now entry.now)) }
    ensures named { IfErr result (λ fault. NamesFile (length inputs.now) fault) }
{
    let program = program_of(alloc, inputs)?;
    program.program_invariant();
    let traced = trace_program(alloc, &program, limits, entry, chooser, most.turns())?;
    let judgement = judge_trace(alloc, spec, &traced.trace)?;
    Ok(Judged {
        run: traced,
        judgement,
    })
}

/// Runs the program of class files and sources from its entry on, and judges the run by the specification, if there is
/// one.
///
/// # Errors
///
/// The fault of the first input that is no class. Else the reason why the classes can't be linked. Else the reason why
/// there is no machine. A checker never refuses an item of a run: each exit is of its thread's innermost method, and
/// there are at most as many events as turns. A fault leaves the chooser unchanged.
pub fn judge(
    alloc: Global,
    inputs: &[Input],
    limits: Limits,
    entry: &Entry,
    chooser: &mut Chooser,
    most: TurnLimit,
    spec: Option<Spec>,
) -> Result<Judged, JudgeFault>
    // The choices are all that the chooser makes, up to `most`. Outcomes, result, output, trace, status and uncaught
    // exceptions are those of the run of these choices, by the instruction table over the program of the inputs.
    ensures exact { IfOk result (λ j.
        run_judged most chooser.old limits inputs.now entry.now ≡ Ok (view_of_traced j.run)) }
    // The judgement is the verdict on the trace with its counts, or `None` without a specification.
    ensures judged { IfOk result (λ j. IsJudgement spec j.run.trace j.judgement) }
    // The chooser is then the one after these choices. A fault leaves it unchanged.
    ensures chooser { OnOk result
        (chooser_left most chooser.old limits inputs.now entry.now ≡ Ok chooser.new) }
    ensures kept { OnErr result (chooser.new ≡ chooser.old) }
    // A fault is returned only if its condition holds. A fault of an input names one of these.
    ensures fault { IfErr result (λ fault.
        IsFault fault (run_judged most chooser.old limits inputs.now entry.now)) }
    ensures named { IfErr result (λ fault. NamesFile (length inputs.now) fault) }
{
    let mut moved = chooser.copy()?;
    let judged = run_and_judge(alloc, inputs, limits, entry, &mut moved, most, spec)?;
    *chooser = moved;
    Ok(judged)
}
