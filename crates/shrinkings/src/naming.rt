//! The departures that name the choices of a schedule's run, on a program.

ghost use Rattle.std.specs.Prelude.{IfErr, IfOk, IsTrue, OnOk};
ghost use Rattle.explore_jobs.specs.Plans.{fits};
ghost use Rattle.judge.specs.Faults.{IsFault, NamesFile};
ghost use Rattle.shrinkings.specs.Programs.{NamesRun, fitting_program};

use departures::Departure;
use exploration_text::exploring::Plan;
use judge::JudgeFault;
use machine::Machine;
use program::Program;
use schedule::Chooser;
use shrinking::departures_of;
use std::alloc::Global;

/// Returns the departures that name the choices of a chooser for a program, at most those of the plan's turns.
#[tactic(auto, using(crate::proofs::Fits::not_fitted))]
pub(crate) fn named_departures(
    alloc: Global,
    program: &Program,
    plan: &Plan,
    chooser: &mut Chooser,
) -> Result<Vec<Departure>, JudgeFault>
    ensures names { IfOk result (λ departures.
        NamesRun program.now plan.now chooser.old departures.items) }
    ensures fits { OnOk result (IsTrue (fits program.now plan.now)) }
    ensures fault { IfErr result (λ fault. IsFault fault (fitting_program plan.now program.now)) }
    ensures named { IfErr result (λ fault. NamesFile 0 fault) }
{
    let mut machine = Machine::new(alloc, program, plan.limits, &plan.entry)?;
    let named = departures_of(alloc, &mut machine, chooser, plan.most.turns());
    drop(machine);
    match named {
        Ok(departures) => Ok(departures),
        Err(_) => Err(JudgeFault::Memory),
    }
}
