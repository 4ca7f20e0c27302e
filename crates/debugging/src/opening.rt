//! Opens the session along the run of a chooser's choices.

ghost use Rattle.std.specs.Prelude.{◌≡◌, IfErr, IfOk, Ok};
ghost use Rattle.debugging.specs.Sessions.{AreChoices, session_on};
ghost use Rattle.runs.specs.Choices.{choices_from};
ghost use Rattle.judge.specs.Faults.{IsFault, NamesFile};

use debugger::Session;
use judge::JudgeFault;
use jvms_machine::machine::{Entry, Limits, ThreadId};
use machine::Machine;
use program::Program;
use runs::take_turns;
use schedule::Chooser;
use std::alloc::{AllocError, Global};
use trace::Recording;

/// Returns the choices of a chooser for a machine, at most this number of them. The machine takes their turns.
fn choices_from(
    alloc: Global,
    machine: &mut Machine<'_>,
    chooser: &mut Chooser,
    most: u64,
) -> Result<Vec<ThreadId>, AllocError>
    ensures { IfOk result (λ v. v.items ≡ choices_from most chooser.old machine.old) }
{
    let mut recording = Recording::of_nothing();
    let turns = take_turns(alloc, machine, chooser, most, &mut recording)?;
    Ok(turns.choices.into_vec())
}

/// Returns the choices of a chooser for a program from an entry on, at most this number of them.
#[tactic(auto, using(crate::proofs::Begun::is_fault))]
fn choices_of(
    alloc: Global,
    program: &Program,
    limits: Limits,
    entry: &Entry,
    chooser: &mut Chooser,
    most: u64,
) -> Result<Vec<ThreadId>, JudgeFault>
    ensures choices { IfOk result (λ v.
        AreChoices most chooser.old limits program.now entry.now v.items) }
    ensures fault { IfErr result (λ fault. IsFault fault
        (session_on most chooser.old limits program.now entry.now)) }
    ensures named { IfErr result (λ fault. NamesFile 0 fault) }
{
    let mut machine = Machine::new(alloc, program, limits, entry)?;
    let chosen = choices_from(alloc, &mut machine, chooser, most);
    drop(machine);
    match chosen {
        Ok(choices) => Ok(choices),
        Err(_) => Err(JudgeFault::Memory),
    }
}

/// Begins a session before the first of a chooser's choices for a program, at most this number of them.
#[tactic(auto, using(crate::proofs::Begun::is_fault))]
pub(crate) fn session_on<'p>(
    alloc: Global,
    program: &'p Program,
    limits: Limits,
    entry: &Entry,
    mut chooser: Chooser,
    most: u64,
) -> Result<Session<'p>, JudgeFault>
    ensures session { IfOk result (λ s. session_on most chooser limits program.now entry.now
        ≡ Ok s) }
    ensures fault { IfErr result (λ fault. IsFault fault
        (session_on most chooser limits program.now entry.now)) }
    ensures named { IfErr result (λ fault. NamesFile 0 fault) }
{
    let choices = choices_of(alloc, program, limits, entry, &mut chooser, most)?;
    match Session::new(alloc, program, limits, entry, choices) {
        Ok(session) => Ok(session),
        Err(fault) => Err(JudgeFault::Machine(fault)),
    }
}
