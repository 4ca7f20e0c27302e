//! Runs of which only the ending is kept.

ghost use Rattle.std.specs.Prelude.{◌≡◌, IfOk, IfErr, OnOk, Ok};
ghost use Rattle.program_runs.specs.Faults.{IsProgramFault};
ghost use Rattle.program_runs.specs.Shown.{HasEnding, program_chooser_left, view_of_program};
ghost use Rattle.runs.specs.Choices.{chooser_after_choices};
ghost use Rattle.runs.specs.Endings.{ending_of};

use crate::fault::ProgramFault;
use jvms_machine::machine::{Entry, Limits};
use program::Program;
use runs::machine::Machine;
use runs::schedule::Chooser;
use runs::{Ending, run_to_end};
use std::alloc::Global;

/// Runs a machine by the choices of a chooser, at most `most` of them.
fn run_machine(
    alloc: Global,
    machine: &mut Machine<'_>,
    chooser: &mut Chooser,
    most: u64,
) -> Result<Ending, ProgramFault>
    ensures ending { IfOk result (λ ending. ending ≡ ending_of most chooser.old machine.old) }
    ensures chooser { OnOk result
        (chooser.new ≡ chooser_after_choices most chooser.old machine.old) }
    ensures memory { IfErr result (λ fault. fault ≡ ProgramFault.Memory) }
{
    let ending = run_to_end(alloc, machine, chooser, most)?;
    Ok(ending)
}

/// Runs a program from an entry by the choices of a chooser, at most `most` of them, and returns the ending of the run.
/// Choices, outcomes and items aren't kept, so that a run takes no memory for them, however long it is.
///
/// # Errors
///
/// There is no machine for the entry, or there was no memory. Then the chooser may have moved.
#[tactic(auto, unfolding(crate::specs::Shown::view_of_program, crate::specs::Shown::program_chooser_left))]
pub fn run_program(
    alloc: Global,
    program: &Program,
    limits: Limits,
    entry: &Entry,
    chooser: &mut Chooser,
    most: u64,
) -> Result<Ending, ProgramFault>
    // The number of turns, result, output, status and uncaught exceptions are those of the run of all choices of the
    // chooser, up to `most`, by the instruction table.
    ensures ending { IfOk result (λ ending.
        HasEnding (view_of_program most chooser.old limits program.now entry.now) ending) }
    // The chooser is then the one after these choices.
    ensures chooser { OnOk result
        (program_chooser_left most chooser.old limits program.now entry.now ≡ Ok chooser.new) }
    // A fault is returned only if its condition holds.
    ensures fault { IfErr result (λ fault.
        IsProgramFault fault (view_of_program most chooser.old limits program.now entry.now)) }
{
    let mut machine = Machine::new(alloc, program, limits, entry)?;
    let ran = run_machine(alloc, &mut machine, chooser, most);
    drop(machine);
    ran
}
