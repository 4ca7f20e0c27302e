//! Writes the text of an exploration's answer.

ghost use Rattle.std.specs.Prelude.{◌≡◌, ◌≢◌, ◌+◌, ◌<◌, ◌≤◌, length, IfErr, IfOk, IsErrOf, OnOk};
ghost use Rattle.std.specs.Io.KnownBytes.{Appends};
ghost use Rattle.judge.specs.declared.fault.JudgeFault.TheVariants as judge_fault;
ghost use Rattle.trace.specs.Bytes.{AppendsBeginning};
ghost use Rattle.exploration_text.specs.Texts.{answer_text};
ghost use Rattle.explorations.specs.Faults.{IsFault, NamesFile};
ghost use Rattle.explorations.specs.Programs.{IsAnswerOf, WroteBeginning, program_for};

use crate::fault::ExplorationFault;
use crate::running::explore_inputs;
use exploration_text::answer_text;
use exploration_text::exploring::{Answer, Bounds, Observer, Plan, Team};
use inputs::Input;
use std::alloc::Global;
use std::sync::Wait;
use std::thread::Threads;
use trace::ByteOut;

/// Writes the text of an answer under a plan, up to this number of departures.
fn put_answer<W: ByteOut>(
    alloc: Global,
    most: u64,
    plan: &Plan,
    answer: &Answer,
    output: &mut W,
) -> Result<(), ExplorationFault>
    ensures written { OnOk result (Appends (W.written output.old) (W.written output.new)
        (answer_text most plan.now answer.now)) }
    ensures count { OnOk result (W.failures output.new ≡ W.failures output.old) }
    ensures beginning { IsErrOf result ExplorationFault.Output → AppendsBeginning
        (W.written output.old) (W.written output.new) (answer_text most plan.now answer.now) }
    ensures failed { IsErrOf result ExplorationFault.Output
        → W.failures output.new ≡ W.failures output.old + 1 }
    ensures untouched { IfErr result (λ fault. fault ≢ ExplorationFault.Output
        → (fault ≡ ExplorationFault.Judge judge_fault.Memory) × (output.new ≡ output.old)) }
    ensures named { IfErr result (NamesFile 0) }
{
    let text = answer_text(alloc, most, plan, answer)?;
    output.write_all(text.as_bytes())?;
    Ok(())
}

/// Explores the program of class files and sources up to the bounds, and writes the text of the answer. It waits for the
/// workers.
///
/// # Errors
///
/// Those of `judge` come first. Then memory can run out.
pub fn write_exploration<R: Threads + Wait + Sync, O: Observer, W: ByteOut>(
    team: &Team<'_, R, O>,
    alloc: Global,
    inputs: &[Input],
    plan: &Plan,
    bounds: Bounds,
    output: &mut W,
) -> Result<Answer, ExplorationFault>
    requires workers { 0 < team.now.workers }
    requires bounds { bounds.departures ≤ 16 }
    // Where the answer is that all is covered, each run that ends and has at most this number of departures has no more
    // turns than the plan's, and ends well: all threads have ended, none by an exception, and its events have no cycle
    // under the specification. If the plan has patterns, that is said only of runs that leave a thread where its next turn
    // isn't local, and where it isn't enabled or a pattern includes the method of its top frame. If the plan has a part, it
    // is said of the runs of the part's jobs, and all parts together cover what is covered without. Where the answer is a run
    // that fails, that run is as its line says, and no such run with fewer departures fails. The levels are those that
    // the bounds ask for, and their counts are right. It is the same for every number of workers.
    ensures answer { IfOk result (IsAnswerOf plan.now bounds (program_for plan.now inputs.now)) }
    // Exactly the answer's text was written.
    ensures written { IfOk result (λ answer. Appends (W.written output.old) (W.written output.new)
        (answer_text bounds.departures plan.now answer)) }
    ensures count { OnOk result (W.failures output.new ≡ W.failures output.old) }
    // A fault is returned only if its condition holds. A fault of an input names one of these.
    ensures fault { IfErr result (λ fault. IsFault fault (program_for plan.now inputs.now)) }
    ensures named { IfErr result (NamesFile (length inputs.now)) }
    ensures untouched { IfErr result
        (λ fault. fault ≢ ExplorationFault.Output → output.new ≡ output.old) }
    // The fault is `Output` only if the writer failed. Then a prefix of the text was written.
    ensures failed { IsErrOf result ExplorationFault.Output
        → W.failures output.new ≡ W.failures output.old + 1 }
    ensures beginning { IsErrOf result ExplorationFault.Output → WroteBeginning plan.now bounds
        (program_for plan.now inputs.now) (W.written output.old) (W.written output.new) }
{
    let answer = explore_inputs(team, alloc, inputs, plan, bounds)?;
    match put_answer(alloc, bounds.departures, plan, &answer, output) {
        Ok(()) => Ok(answer),
        Err(fault) => {
            drop(answer);
            Err(fault)
        }
    }
}
