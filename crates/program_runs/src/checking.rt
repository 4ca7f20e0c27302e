//! Runs whose items are fed to a checker of atomicity as the run continues, and aren't kept.

ghost use Rattle.std.specs.Prelude.{◌≡◌, ◌≤◌, [], length, IfOk, IfErr, OnOk, Ok};
ghost use Rattle.runs.specs.machine.Machine.{with_state};
ghost use Rattle.runs.specs.machine.Runs.{run_of};
ghost use Rattle.program_runs.specs.Faults.{IsProgramFault};
ghost use Rattle.program_runs.specs.Judgements.{IsFedWith, IsJudgementBy, IsJudgementIn, IsOpened, MayFollow, with_items};
ghost use Rattle.program_runs.specs.Shown.{HasEnding, program_chooser_left, view_of_program, view_of_run};
ghost use Rattle.runs.specs.Choices.{choices_from, chooser_after_choices};
ghost use Rattle.runs.specs.Endings.{ending_of};

use crate::fault::ProgramFault;
use crate::feeding::{Judgement, feed_items, judgement_of};
use atom_graph::Checker;
use atom_spec::Spec;
use jvms_machine::machine::{Entry, Limits};
use program::Program;
use runs::machine::Machine;
use runs::schedule::Chooser;
use runs::{Ending, count_turns, ending_after};
use std::alloc::{AllocError, Global};
use trace::{Recording, Trace};
use turn_limit::TurnLimit;

/// The number of turns that are taken before their items are fed, so that few items are kept at a time.
const TURNS_AT_ONCE: u64 = 512;

/// Takes the next turns that a chooser gives, at most `most` of them, and feeds their items to a checker. The trace is
/// empty before and after, and its memory is reused.
fn check_some(
    alloc: Global,
    machine: &mut Machine<'_>,
    chooser: &mut Chooser,
    most: u64,
    checker: &mut Checker,
    trace: &mut Trace,
) -> Result<u64, AllocError>
    requires empty { trace.old ≡ [] }
    requires fed { MayFollow checker.old
        (run_of machine.old (choices_from most chooser.old machine.old)).items }
    ensures count { IfOk result (λ n. n ≡ length (choices_from most chooser.old machine.old)) }
    ensures chooser { OnOk result
        (chooser.new ≡ chooser_after_choices most chooser.old machine.old) }
    ensures state { OnOk result (machine.new ≡ with_state machine.old
        (run_of machine.old (choices_from most chooser.old machine.old)).state) }
    ensures fed { OnOk result (checker.new ≡ with_items
        (run_of machine.old (choices_from most chooser.old machine.old)).items checker.old) }
    ensures empty { OnOk result (trace.new ≡ []) }
{
    let mut recording = Recording::taken_from(alloc, trace);
    let counted = count_turns(alloc, machine, chooser, most, &mut recording);
    recording.give_back(trace);
    let turns = counted?;
    feed_items(checker, trace.items())?;
    trace.truncate(0);
    Ok(turns)
}

/// Takes the turns that a chooser gives, at most `most` of them, from the opening of a machine, and feeds their items
/// to a checker. Choices, outcomes and items aren't kept.
pub fn check_turns(
    alloc: Global,
    machine: &mut Machine<'_>,
    chooser: &mut Chooser,
    most: TurnLimit,
    checker: &mut Checker,
) -> Result<u64, AllocError>
    requires opened { IsOpened machine.old }
    requires fresh { checker.old.items ≡ [] }
    ensures count { IfOk result (λ n. n ≡ length (choices_from most chooser.old machine.old)) }
    ensures chooser { OnOk result
        (chooser.new ≡ chooser_after_choices most chooser.old machine.old) }
    // Machine and items are those of the run of these choices, by the instruction table.
    ensures state { OnOk result (machine.new ≡ with_state machine.old
        (run_of machine.old (choices_from most chooser.old machine.old)).state) }
    ensures fed { OnOk result (checker.new ≡ with_items
        (run_of machine.old (choices_from most chooser.old machine.old)).items checker.old) }
{
    let most = most.turns();
    let mut trace = Trace::new(alloc);
    let mut taken = 0;
    while taken < most {
        let asked = TURNS_AT_ONCE.min(most - taken);
        let turns = check_some(alloc, machine, chooser, asked, checker, &mut trace)?;
        taken += turns;
        if turns < asked {
            return Ok(taken);
        }
    }
    Ok(taken)
}

/// Runs a machine from its opening by the choices of a chooser, at most `most` of them, and feeds a checker.
fn check_machine(
    alloc: Global,
    machine: &mut Machine<'_>,
    chooser: &mut Chooser,
    most: TurnLimit,
    checker: &mut Checker,
) -> Result<Ending, ProgramFault>
    requires opened { IsOpened machine.old }
    requires fresh { checker.old.items ≡ [] }
    ensures ending { IfOk result (λ ending. ending ≡ ending_of most chooser.old machine.old) }
    ensures fed { OnOk result (checker.new
        ≡ with_items (view_of_run most chooser.old machine.old).items checker.old) }
    ensures chooser { OnOk result
        (chooser.new ≡ chooser_after_choices most chooser.old machine.old) }
    ensures memory { IfErr result (λ fault. fault ≡ ProgramFault.Memory) }
{
    let turns = check_turns(alloc, machine, chooser, most, checker)?;
    let ending = ending_after(alloc, machine, turns)?;
    Ok(ending)
}

/// The ending of a run, and its judgement.
#[derive(Debug, Drop)]
pub struct CheckedRun {
    pub ending: Ending,
    pub judgement: Judgement,
}

/// Runs a program from an entry by the choices of a chooser, at most `most` of them, and returns the ending of the run.
/// The items are fed to a checker as the run continues, and aren't kept.
///
/// # Errors
///
/// There is no machine for the entry, or there was no memory. Then the chooser may have moved, and the checker may have
/// been fed. No item of a run is at fault with a checker: each exit is of its thread's innermost method, and there are
/// no more events than turns.
#[tactic(auto, unfolding(crate::specs::Shown::view_of_program, crate::specs::Shown::program_chooser_left))]
pub fn feed_program(
    alloc: Global,
    program: &Program,
    limits: Limits,
    entry: &Entry,
    chooser: &mut Chooser,
    most: TurnLimit,
    checker: &mut Checker,
) -> Result<Ending, ProgramFault>
    requires fresh { checker.old.items ≡ [] }
    // The number of turns, result, output, status and uncaught exceptions are those of the run of all choices of the
    // chooser, up to `most`, by the instruction table.
    ensures ending { IfOk result (λ ending.
        HasEnding (view_of_program most chooser.old limits program.now entry.now) ending) }
    // The checker was fed the items of that run.
    ensures fed { OnOk result (IsFedWith (view_of_program most chooser.old
        limits program.now entry.now) checker.old.lines checker.new) }
    // The chooser is then the one after its choices.
    ensures chooser { OnOk result
        (program_chooser_left most chooser.old limits program.now entry.now ≡ Ok chooser.new) }
    // A fault is returned only if its condition holds.
    ensures fault { IfErr result (λ fault.
        IsProgramFault fault (view_of_program most chooser.old limits program.now entry.now)) }
{
    program.program_invariant();
    let mut machine = Machine::new(alloc, program, limits, entry)?;
    let ran = check_machine(alloc, &mut machine, chooser, most, checker);
    drop(machine);
    ran
}

/// Runs a machine from its opening as `check_machine` does, and judges the run.
fn judge_by(
    alloc: Global,
    machine: &mut Machine<'_>,
    chooser: &mut Chooser,
    most: TurnLimit,
    checker: &mut Checker,
) -> Result<CheckedRun, ProgramFault>
    requires opened { IsOpened machine.old }
    requires fresh { checker.old.items ≡ [] }
    ensures ending { IfOk result (λ run. run.ending ≡ ending_of most chooser.old machine.old) }
    ensures judgement { IfOk result (λ run. IsJudgementBy checker.old.lines
        (view_of_run most chooser.old machine.old).items run.judgement) }
    ensures chooser { OnOk result
        (chooser.new ≡ chooser_after_choices most chooser.old machine.old) }
    ensures memory { IfErr result (λ fault. fault ≡ ProgramFault.Memory) }
{
    let ending = check_machine(alloc, machine, chooser, most, checker)?;
    let judgement = judgement_of(checker)?;
    Ok(CheckedRun { ending, judgement })
}

/// Runs a machine from its opening as `check_machine` does, with a checker of its own, and judges the run.
fn judge_machine(
    alloc: Global,
    machine: &mut Machine<'_>,
    chooser: &mut Chooser,
    most: TurnLimit,
    spec: Spec,
) -> Result<CheckedRun, ProgramFault>
    requires opened { IsOpened machine.old }
    ensures ending { IfOk result (λ run. run.ending ≡ ending_of most chooser.old machine.old) }
    ensures judgement { IfOk result (λ run.
        IsJudgementBy spec (view_of_run most chooser.old machine.old).items run.judgement) }
    ensures chooser { OnOk result
        (chooser.new ≡ chooser_after_choices most chooser.old machine.old) }
    ensures memory { IfErr result (λ fault. fault ≡ ProgramFault.Memory) }
{
    let mut checker = Checker::new(alloc, spec)?;
    let judged = judge_by(alloc, machine, chooser, most, &mut checker);
    drop(checker);
    judged
}

/// Runs a program as `feed_program` does, and returns the ending of the run and its judgement by a specification.
///
/// # Errors
///
/// There is no machine for the entry, or there was no memory. Then the chooser may have moved.
#[tactic(auto, unfolding(crate::specs::Shown::view_of_program, crate::specs::Shown::program_chooser_left))]
pub fn check_program(
    alloc: Global,
    program: &Program,
    limits: Limits,
    entry: &Entry,
    chooser: &mut Chooser,
    most: TurnLimit,
    spec: Spec,
) -> Result<CheckedRun, ProgramFault>
    ensures ending { IfOk result (λ run.
        HasEnding (view_of_program most chooser.old limits program.now entry.now) run.ending) }
    // The judgement is the verdict on the items of that run, and their counts.
    ensures judgement { IfOk result (λ run. IsJudgementIn spec
        (view_of_program most chooser.old limits program.now entry.now) run.judgement) }
    ensures chooser { OnOk result
        (program_chooser_left most chooser.old limits program.now entry.now ≡ Ok chooser.new) }
    ensures fault { IfErr result (λ fault.
        IsProgramFault fault (view_of_program most chooser.old limits program.now entry.now)) }
{
    program.program_invariant();
    let mut machine = Machine::new(alloc, program, limits, entry)?;
    let judged = judge_machine(alloc, &mut machine, chooser, most, spec);
    drop(machine);
    judged
}
