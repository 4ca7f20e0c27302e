//! The exploration of a program from class files and sources.

ghost use Rattle.std.specs.Prelude.{◌≡◌, ◌≢◌, ◌<◌, ◌≤◌, length, IfErr, IfOk, IsTrue, OnOk};
ghost use Rattle.jvms_machine.specs.Opening.{start_of_entry};
ghost use Rattle.program_runs.specs.Faults.{IsProgramFault};
ghost use Rattle.exploration_text.specs.explore_jobs.Plans.{fits};
ghost use Rattle.explorations.specs.Faults.{IsFault, NamesFile};
ghost use Rattle.explorations.specs.Programs.{IsAnswerOf, fitting_program, program_for};

use crate::fault::ExplorationFault;
use exploration_text::exploring::{Answer, Bounds, Observer, Plan, Team, explore};
use inputs::Input;
use judge::{JudgeFault, program_of};
use machine::Machine;
use program::Program;
use program_runs::ProgramFault;
use std::alloc::Global;
use std::sync::Wait;
use std::thread::Threads;

/// Refuses a plan if no machine of the program can be made for it.
fn fit(alloc: Global, program: &Program, plan: &Plan) -> Result<(), ProgramFault>
    ensures fits { OnOk result (IsTrue (fits program.now plan.now)) }
    ensures fault { IfErr result (λ fault.
        IsProgramFault fault (start_of_entry program.now plan.now.limits plan.now.entry)) }
{
    let machine = Machine::new(alloc, program, plan.limits, &plan.entry)?;
    drop(machine);
    Ok(())
}

/// Explores a program.
#[tactic(auto, using(crate::proofs::Fits::not_fitted))]
fn explore_program<R: Threads + Wait + Sync, O: Observer>(
    team: &Team<'_, R, O>,
    alloc: Global,
    program: &Program,
    plan: &Plan,
    bounds: Bounds,
) -> Result<Answer, ExplorationFault>
    requires workers { 0 < team.now.workers }
    requires bounds { bounds.departures ≤ 16 }
    ensures answer { IfOk result (IsAnswerOf plan.now bounds (fitting_program plan.now program.now)) }
    ensures fault { IfErr result (λ fault. IsFault fault (fitting_program plan.now program.now)) }
    ensures named { IfErr result (NamesFile 0) }
    ensures unwritten { IfErr result (λ fault. fault ≢ ExplorationFault.Output) }
{
    if let Err(fault) = fit(alloc, program, plan) {
        return Err(ExplorationFault::Judge(JudgeFault::from(fault)));
    }
    let answer = explore(team, alloc, program, plan, bounds)?;
    Ok(answer)
}

/// Explores the program of class files and sources.
#[tactic(auto, unfolding(crate::specs::Programs::program_for))]
pub(crate) fn explore_inputs<R: Threads + Wait + Sync, O: Observer>(
    team: &Team<'_, R, O>,
    alloc: Global,
    inputs: &[Input],
    plan: &Plan,
    bounds: Bounds,
) -> Result<Answer, ExplorationFault>
    requires workers { 0 < team.now.workers }
    requires bounds { bounds.departures ≤ 16 }
    ensures answer { IfOk result (IsAnswerOf plan.now bounds (program_for plan.now inputs.now)) }
    ensures fault { IfErr result (λ fault. IsFault fault (program_for plan.now inputs.now)) }
    ensures named { IfErr result (NamesFile (length inputs.now)) }
    ensures unwritten { IfErr result (λ fault. fault ≢ ExplorationFault.Output) }
{
    let program = program_of(alloc, inputs)?;
    let answer = explore_program(team, alloc, &program, plan, bounds);
    drop(program);
    answer
}
