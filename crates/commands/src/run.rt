//! `run`: runs a program and writes its output.

ghost use Rattle.std.specs.Prelude.{◌≡◌, ◌≢◌, ◌+◌, [], false, IfOk, IfErr, OnOk, IsErrOf, IsTrue, Ok, length};
ghost use Rattle.std.specs.Io.KnownBytes.{Appends};
ghost use Rattle.std.specs.String.{string_bytes};
ghost use Rattle.explaining.specs.Explanations.{explanation_of_inputs};
ghost use Rattle.judge.specs.Faults.{IsFault as IsJudgeFault, NamesFile as NamesInput};
ghost use Rattle.judge.specs.Judgement.{IsJudgementOn};
ghost use Rattle.judge.specs.Shown.{run_judged};
ghost use Rattle.program_runs.specs.Shown.{HasEnding};
ghost use Rattle.commands.specs.Faults.{IsFault, NamesFile, WroteBeginning};
ghost use Rattle.commands.specs.Limits.{default_limits};

use crate::fault::RunFault;
use crate::limits::DEFAULT_LIMITS;
use atom_spec::Spec;
use explaining::{ExplainedRun, run_explained};
use inputs::Input;
use judge::JudgeFault;
use jvms_machine::machine::Entry;
use schedule::Chooser;
use std::alloc::Global;
use trace::ByteOut;
use turn_limit::TurnLimit;

/// Runs the program of class files and sources, and explains the run if `explains` is set. Else the explanation is
/// empty.
fn run_and_explain(
    alloc: Global,
    inputs: &[Input],
    entry: &Entry,
    chooser: &mut Chooser,
    most: TurnLimit,
    spec: Option<Spec>,
    explains: bool,
) -> Result<ExplainedRun, JudgeFault>
    ensures ending { IfOk result (λ run.
        HasEnding (run_judged most chooser.old default_limits inputs.now entry.now) run.ending) }
    ensures judged { IfOk result (λ run. IsJudgementOn spec
        (run_judged most chooser.old default_limits inputs.now entry.now) run.judgement) }
    ensures explained { IfOk result
        (λ run. IsTrue explains → explanation_of_inputs spec run.judgement most chooser.old
        default_limits inputs.now entry.now ≡ Ok (string_bytes run.explanation)) }
    ensures plain { IfOk result (λ run. explains ≡ false → string_bytes run.explanation ≡ []) }
    ensures fault { IfErr result (λ fault.
        IsJudgeFault fault (run_judged most chooser.old default_limits inputs.now entry.now)) }
    ensures named { IfErr result (λ fault. NamesInput (length inputs.now) fault) }
{
    let limits = DEFAULT_LIMITS;
    if explains {
        return run_explained(alloc, inputs, limits, entry, chooser, most, spec);
    }
    let run = judge::run(alloc, inputs, limits, entry, chooser, most, spec)?;
    Ok(ExplainedRun {
        ending: run.ending,
        judgement: run.judgement,
        explanation: String::new(alloc),
    })
}

/// Runs the program of class files and sources by at most `most` of a chooser's choices, and writes its output. Judges
/// the run if there is a specification, and explains it if `explains` is set.
pub fn run<W: ByteOut>(
    alloc: Global,
    inputs: &[Input],
    entry: &Entry,
    chooser: &mut Chooser,
    most: TurnLimit,
    spec: Option<Spec>,
    explains: bool,
    output: &mut W,
) -> Result<ExplainedRun, RunFault>
    // The number of turns, the status, the uncaught exceptions and the output are those of the run by the instruction
    // table.
    ensures ending { IfOk result (λ run.
        HasEnding (run_judged most chooser.old default_limits inputs.now entry.now) run.ending) }
    // The verdict is that on the run's items.
    ensures judged { IfOk result (λ run. IsJudgementOn spec
        (run_judged most chooser.old default_limits inputs.now entry.now) run.judgement) }
    // The explanation is that of the verdict's cycle, on the items of that run with their turns, and of the threads of
    // the machine after the run.
    ensures explained { IfOk result
        (λ run. IsTrue explains → explanation_of_inputs spec run.judgement most chooser.old
        default_limits inputs.now entry.now ≡ Ok (string_bytes run.explanation)) }
    // Without `explains` the explanation is empty.
    ensures plain { IfOk result (λ run. explains ≡ false → string_bytes run.explanation ≡ []) }
    // Exactly the output's bytes were written.
    ensures written { IfOk result (λ run.
        Appends (W.written output.old) (W.written output.new) run.ending.output) }
    ensures count { OnOk result (W.failures output.new ≡ W.failures output.old) }
    // A fault is returned only if its condition holds. A fault of a file names one of these.
    ensures fault { IfErr result
        (λ fault. IsFault fault (run_judged most chooser.old default_limits inputs.now entry.now)) }
    ensures named { IfErr result (λ fault. NamesFile (length inputs.now) fault) }
    ensures untouched { IfErr result (λ fault. fault ≢ RunFault.Output → output.new ≡ output.old) }
    // The fault is `Output` only if the writer failed. Then a prefix of the bytes was written.
    ensures failed { IsErrOf result RunFault.Output
        → W.failures output.new ≡ W.failures output.old + 1 }
    ensures beginning { IsErrOf result RunFault.Output
        → WroteBeginning (run_judged most chooser.old default_limits inputs.now entry.now)
        (λ shown. shown.output) (W.written output.old) (W.written output.new) }
{
    let run = run_and_explain(alloc, inputs, entry, chooser, most, spec, explains)?;
    output.write_all(run.ending.output.as_slice())?;
    Ok(run)
}
