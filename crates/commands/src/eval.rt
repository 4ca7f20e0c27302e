//! `eval`: runs a static method and prints its result.

ghost use Rattle.std.specs.Prelude.{◌≡◌, ◌≢◌, ◌+◌, ◌++◌, ◌∷◌, [], IfOk, IfErr, OnOk, IsErrOf, length, string_bytes};
ghost use Rattle.std.specs.Io.KnownBytes.{Appends};
ghost use Rattle.trace.specs.Bytes.{AppendsBeginning};
ghost use Rattle.program_runs.specs.Shown.{HasEnding};
ghost use Rattle.commands.specs.Faults.{IsFault, NamesFile, WroteBeginning};
ghost use Rattle.commands.specs.Evaluation.{eval_result, result_text, value_text};

use crate::fault::RunFault;
use crate::limits::DEFAULT_LIMITS;
use inputs::Input;
use judge::JudgeFault;
use jvms_machine::machine::Entry;
use jvms_machine::value::Value;
use runs::Ending;
use schedule::Chooser;
use std::alloc::{AllocError, Global};
use trace::ByteOut;
use turn_limit::TurnLimit;

/// The maximum number of turns of thread 0.
const MOST_TURNS: u64 = 1_000_000;

/// Returns the maximum number of turns of thread 0.
fn most_turns() -> TurnLimit
    ensures { result ≡ 1000000 }
{
    match TurnLimit::new(MOST_TURNS) {
        Some(most) => most,
        None => unreachable!(),
    }
}

/// Returns the line of a value.
fn value_line(alloc: Global, value: Value) -> Result<String, AllocError>
    ensures { IfOk result (λ line. string_bytes line ≡ value_text value ++ 10 ∷ []) }
{
    match value {
        Value::Int(n) => format!(in alloc; "{n}\n"),
        Value::Long(n) => format!(in alloc; "{n}\n"),
        Value::Second => format!(in alloc; "+\n"),
        Value::Null => format!(in alloc; "null\n"),
        Value::Reference(r) => format!(in alloc; "R:{r}\n"),
        Value::ReturnAddress(i) => format!(in alloc; "ret:{i}\n"),
        Value::Unset => format!(in alloc; "-\n"),
    }
}

/// Writes the line of a result, if there is one.
fn write_result<W: ByteOut>(
    alloc: Global,
    value: Option<Value>,
    output: &mut W,
) -> Result<(), RunFault>
    ensures written { OnOk result
        (Appends (W.written output.old) (W.written output.new) (result_text value)) }
    ensures count { OnOk result (W.failures output.new ≡ W.failures output.old) }
    ensures beginning { IsErrOf result RunFault.Output
        → AppendsBeginning (W.written output.old) (W.written output.new) (result_text value) }
    ensures failed { IsErrOf result RunFault.Output
        → W.failures output.new ≡ W.failures output.old + 1 }
    ensures named { IfErr result (λ fault. NamesFile 0 fault) }
    ensures untouched { IfErr result (λ fault. fault ≢ RunFault.Output
        → (fault ≡ RunFault.Judge JudgeFault.Memory) × (output.new ≡ output.old)) }
{
    let Some(value) = value else {
        return Ok(());
    };
    let line = value_line(alloc, value)?;
    output.write_all(line.as_bytes())?;
    Ok(())
}

/// Runs a static method of the program of class files and sources, and writes the line of its result. Thread 0 takes
/// all turns as long as it is enabled, at most 1,000,000.
pub fn eval<W: ByteOut>(
    alloc: Global,
    inputs: &[Input],
    entry: &Entry,
    output: &mut W,
) -> Result<Ending, RunFault>
    // The result, the status, the turns and the uncaught exceptions are those of the run by the instruction table.
    ensures exact { IfOk result (λ e. HasEnding (eval_result inputs.now entry.now) e) }
    // The line of the result was written, or nothing if there is none.
    ensures written { IfOk result
        (λ e. Appends (W.written output.old) (W.written output.new) (result_text e.result)) }
    ensures count { OnOk result (W.failures output.new ≡ W.failures output.old) }
    // A fault is returned only if its condition holds. A fault of a file names one of these.
    ensures fault { IfErr result (λ fault. IsFault fault (eval_result inputs.now entry.now)) }
    ensures named { IfErr result (λ fault. NamesFile (length inputs.now) fault) }
    ensures untouched { IfErr result (λ fault. fault ≢ RunFault.Output → output.new ≡ output.old) }
    // The fault is `Output` only if the writer failed. Then a prefix of the line was written.
    ensures failed { IsErrOf result RunFault.Output
        → W.failures output.new ≡ W.failures output.old + 1 }
    ensures beginning { IsErrOf result RunFault.Output → WroteBeginning
        (eval_result inputs.now entry.now) (λ shown. result_text shown.result)
        (W.written output.old) (W.written output.new) }
{
    let mut chooser = Chooser::alone();
    let most = most_turns();
    let run = judge::run(
        alloc,
        inputs,
        DEFAULT_LIMITS,
        entry,
        &mut chooser,
        most,
        None,
    )?;
    write_result(alloc, run.ending.result, output)?;
    Ok(run.ending)
}
