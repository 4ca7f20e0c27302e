//! Runs of which choices, outcomes and items are kept.

ghost use Rattle.std.specs.Prelude.{◌≡◌, IfOk, IfErr, OnOk, Ok, length};
ghost use Rattle.program_runs.specs.Faults.{IsProgramFault};
ghost use Rattle.program_runs.specs.Shown.{program_chooser_left, view_of_program, view_of_traced, view_of_run};
ghost use Rattle.runs.specs.Choices.{chooser_after_choices};

use crate::fault::ProgramFault;
use jvms_machine::machine::{Entry, Limits, ThreadId};
use outcome_list::OutcomeList;
use program::Program;
use runs::machine::Machine;
use runs::schedule::Chooser;
use runs::{Ending, ending_after, take_turns};
use shared_data::items::Items;
use std::alloc::Global;
use trace::{Recording, Trace};

/// A run with the choices, outcomes and items of its turns.
#[derive(Debug, Drop)]
pub struct TracedRun {
    /// The thread of each turn, in order.
    pub choices: Items<ThreadId>,
    /// The outcome of each turn, in order.
    pub outcomes: OutcomeList,
    /// The items of the turns, in order.
    pub trace: Trace,
    /// The ending of the run.
    pub ending: Ending,
}

/// Runs a machine by the choices of a chooser, at most `most` of them, and keeps the items of the turns.
fn trace_machine(
    alloc: Global,
    machine: &mut Machine<'_>,
    chooser: &mut Chooser,
    most: u64,
) -> Result<TracedRun, ProgramFault>
    ensures shown { IfOk result
        (λ run. view_of_traced run ≡ view_of_run most chooser.old machine.old) }
    ensures turns { IfOk result (λ run. run.ending.turns ≡ length run.choices) }
    ensures chooser { OnOk result
        (chooser.new ≡ chooser_after_choices most chooser.old machine.old) }
    ensures memory { IfErr result (λ fault. fault ≡ ProgramFault.Memory) }
{
    let mut recording = Recording::of(Trace::new(alloc));
    let turns = take_turns(alloc, machine, chooser, most, &mut recording)?;
    let ending = ending_after(alloc, machine, turns.choices.len() as u64)?;
    let Some(trace) = recording.into_trace() else {
        unreachable!()
    };
    Ok(TracedRun {
        choices: turns.choices,
        outcomes: turns.outcomes,
        trace,
        ending,
    })
}

/// Runs a program from an entry by the choices of a chooser, at most `most` of them. Returns the ending of the run,
/// with the choices, outcomes and items of its turns.
///
/// # Errors
///
/// There is no machine for the entry, or there was no memory. Then the chooser may have moved.
#[tactic(auto, unfolding(crate::specs::Shown::view_of_program, crate::specs::Shown::program_chooser_left))]
pub fn trace_program(
    alloc: Global,
    program: &Program,
    limits: Limits,
    entry: &Entry,
    chooser: &mut Chooser,
    most: u64,
) -> Result<TracedRun, ProgramFault>
    // Its choices are all that the chooser gives, up to `most`. All else is that of the run of these choices, by the
    // instruction table.
    ensures shown { IfOk result (λ run.
        view_of_program most chooser.old limits program.now entry.now ≡ Ok (view_of_traced run)) }
    // The number of turns is that of the choices.
    ensures turns { IfOk result (λ run. run.ending.turns ≡ length run.choices) }
    // The chooser is then the one after these choices.
    ensures chooser { OnOk result
        (program_chooser_left most chooser.old limits program.now entry.now ≡ Ok chooser.new) }
    // A fault is returned only if its condition holds.
    ensures fault { IfErr result (λ fault.
        IsProgramFault fault (view_of_program most chooser.old limits program.now entry.now)) }
{
    let mut machine = Machine::new(alloc, program, limits, entry)?;
    let traced = trace_machine(alloc, &mut machine, chooser, most);
    drop(machine);
    traced
}
