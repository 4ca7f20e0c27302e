//! `trace`: writes what the threads of a program did, or which of them took the turns.

ghost use Rattle.std.specs.Prelude.{◌≡◌, ◌≢◌, ◌+◌, None, IfOk, IfErr, OnOk, IsErrOf, length};
ghost use Rattle.std.specs.Io.KnownBytes.{Appends};
ghost use Rattle.trace.specs.Bytes.{AppendsBeginning};
ghost use Rattle.judge.specs.Shown.{run_judged};
ghost use Rattle.program_runs.specs.Shown.{view_of_traced};
ghost use Rattle.commands.specs.Choices.{text_of};
ghost use Rattle.commands.specs.Faults.{IsFault, NamesFile, WroteBeginning};
ghost use Rattle.commands.specs.Limits.{default_limits};

use crate::choices::{TraceText, text_of};
use crate::fault::RunFault;
use crate::limits::DEFAULT_LIMITS;
use inputs::Input;
use judge::{JudgeFault, Judged, judge};
use jvms_machine::machine::Entry;
use program_runs::TracedRun;
use schedule::Chooser;
use std::alloc::Global;
use trace::ByteOut;
use turn_limit::TurnLimit;

/// Writes the text of a run.
fn write_text<W: ByteOut>(
    alloc: Global,
    kind: TraceText,
    run: &TracedRun,
    output: &mut W,
) -> Result<(), RunFault>
    ensures written { OnOk result (Appends (W.written output.old)
        (W.written output.new) (text_of kind (view_of_traced run.now))) }
    ensures count { OnOk result (W.failures output.new ≡ W.failures output.old) }
    ensures beginning { IsErrOf result RunFault.Output → AppendsBeginning (W.written output.old)
        (W.written output.new) (text_of kind (view_of_traced run.now)) }
    ensures failed { IsErrOf result RunFault.Output
        → W.failures output.new ≡ W.failures output.old + 1 }
    ensures named { IfErr result (λ fault. NamesFile 0 fault) }
    ensures untouched { IfErr result (λ fault. fault ≢ RunFault.Output
        → (fault ≡ RunFault.Judge JudgeFault.Memory) × (output.new ≡ output.old)) }
{
    let text = text_of(alloc, kind, run)?;
    output.write_all(text.as_bytes())?;
    Ok(())
}

/// Runs the program of class files and sources by at most `most` of a chooser's choices. Writes the text of its trace,
/// one item a line, or its choices as a schedule.
pub fn write_trace<W: ByteOut>(
    alloc: Global,
    inputs: &[Input],
    entry: &Entry,
    chooser: &mut Chooser,
    most: TurnLimit,
    kind: TraceText,
    output: &mut W,
) -> Result<Judged, RunFault>
    // The turns, the status, the uncaught exceptions and the items are those of the run by the instruction table.
    ensures exact { IfOk result
        (λ j. run_judged most chooser.old default_limits inputs.now entry.now
        ≡ Ok (view_of_traced j.run)) }
    // Nothing is judged.
    ensures unjudged { IfOk result (λ j. j.judgement ≡ None) }
    // Exactly the text of the items, or of the choices, was written.
    ensures written { IfOk result (λ j. Appends (W.written output.old)
        (W.written output.new) (text_of kind (view_of_traced j.run))) }
    ensures count { OnOk result (W.failures output.new ≡ W.failures output.old) }
    // A fault is returned only if its condition holds. A fault of a file names one of these.
    ensures fault { IfErr result
        (λ fault. IsFault fault (run_judged most chooser.old default_limits inputs.now entry.now)) }
    ensures named { IfErr result (λ fault. NamesFile (length inputs.now) fault) }
    ensures untouched { IfErr result (λ fault. fault ≢ RunFault.Output → output.new ≡ output.old) }
    // The fault is `Output` only if the writer failed. Then a prefix of the text was written.
    ensures failed { IsErrOf result RunFault.Output
        → W.failures output.new ≡ W.failures output.old + 1 }
    ensures beginning { IsErrOf result RunFault.Output
        → WroteBeginning (run_judged most chooser.old default_limits inputs.now entry.now)
        (text_of kind) (W.written output.old) (W.written output.new) }
{
    let judged = judge(alloc, inputs, DEFAULT_LIMITS, entry, chooser, most, None)?;
    match write_text(alloc, kind, &judged.run, output) {
        Ok(()) => Ok(judged),
        Err(fault) => {
            drop(judged);
            Err(fault)
        }
    }
}
