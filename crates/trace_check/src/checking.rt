//! `check`: writes the verdict on a trace.

ghost use Rattle.std.specs.Prelude.{◌≡◌, ◌≢◌, ◌+◌, IfOk, IfErr, OnOk, IsErrOf};
ghost use Rattle.std.specs.Io.KnownBytes.{Appends};
ghost use Rattle.trace.specs.Bytes.{AppendsBeginning};
ghost use Rattle.trace_check.specs.Checks.{IsFault, Wrote, WroteBeginning};

use crate::details::Details;
use crate::fault::CheckFault;
use crate::saying::say;
use atom_spec::Spec;
use std::alloc::Global;
use trace::ByteOut;
use velodrome::verdict::Verdict;

/// Writes the verdict of a specification on the trace of a text. The requested details follow: the events of an atomic
/// trace in a serial order, one a line, or the lines that explain a cycle.
///
/// # Errors
///
/// X01 with the number of the first line that is no item. Else F01 with the number of the first line that exits a
/// method other than its thread's innermost open one. F02 past 100,000,000 events. X02, F03 and Memory if memory ran
/// out. P05 if the writer failed.
pub fn check<W: ByteOut>(
    alloc: Global,
    spec: Spec,
    text: &str,
    details: Details,
    output: &mut W,
) -> Result<Verdict, CheckFault>
    // The verdict is that of the items of the text. Exactly its line was written, followed by the requested details.
    ensures exact { IfOk result
        (Wrote spec text.now details (W.written output.old) (W.written output.new)) }
    ensures count { OnOk result (W.failures output.new ≡ W.failures output.old) }
    // The fault is the first one in the text, unless memory ran out or the writer failed.
    ensures fault { IfErr result (IsFault spec text.now) }
    ensures untouched { IfErr result
        (λ fault. fault ≢ CheckFault.Output → output.new ≡ output.old) }
    // The fault is `Output` only if the writer failed. Then a prefix was written.
    ensures failed { IsErrOf result CheckFault.Output
        → W.failures output.new ≡ W.failures output.old + 1 }
    ensures beginning { IsErrOf result CheckFault.Output
        → WroteBeginning spec text.now details (W.written output.old) (W.written output.new) }
{
    let checked = say(alloc, spec, text, details)?;
    output.write_all(checked.text.as_bytes())?;
    Ok(checked.verdict)
}
