//! Writes the text of a shrunk run.

ghost use Rattle.std.specs.Prelude.{◌≡◌, ◌≢◌, ◌+◌, ◌<◌, length, IfErr, IfOk, IsErrOf, OnOk};
ghost use Rattle.std.specs.Io.KnownBytes.{Appends};
ghost use Rattle.judge.specs.declared.fault.JudgeFault.TheVariants as judge_fault;
ghost use Rattle.trace.specs.Bytes.{AppendsBeginning};
ghost use Rattle.shrinkings.specs.Faults.{IsFault, NamesFile};
ghost use Rattle.shrinkings.specs.Programs.{program_for};
ghost use Rattle.shrinkings.specs.Shrunk.{IsShrunkIn, WroteBeginning};
ghost use Rattle.shrinkings.specs.Texts.{shrunk_text};

use crate::fault::ShrinkFault;
use crate::running::shrink_inputs;
use crate::shrunk_run::ShrunkRun;
use crate::text::shrunk_text;
use exploration_text::exploring::Plan;
use inputs::Input;
use schedule::Chooser;
use std::alloc::Global;
use trace::ByteOut;

/// Writes the text of a shrunk run.
fn put_shrunk<W: ByteOut>(
    alloc: Global,
    shrunk: &ShrunkRun,
    output: &mut W,
) -> Result<(), ShrinkFault>
    ensures written { OnOk result (Appends (W.written output.old) (W.written output.new)
        (shrunk_text shrunk.now)) }
    ensures count { OnOk result (W.failures output.new ≡ W.failures output.old) }
    ensures beginning { IsErrOf result ShrinkFault.Output → AppendsBeginning
        (W.written output.old) (W.written output.new) (shrunk_text shrunk.now) }
    ensures failed { IsErrOf result ShrinkFault.Output
        → W.failures output.new ≡ W.failures output.old + 1 }
    ensures untouched { IfErr result (λ fault. fault ≢ ShrinkFault.Output
        → (fault ≡ ShrinkFault.Judge judge_fault.Memory) × (output.new ≡ output.old)) }
    ensures named { IfErr result (NamesFile 0) }
{
    let text = shrunk_text(alloc, shrunk)?;
    output.write_all(text.as_bytes())?;
    Ok(())
}

/// Names the run of a schedule by departures, on the program of class files and sources. Leaves out departures as long as
/// the run fails in the same way, by at most `runs` runs, and writes the text of the run of those that are left.
///
/// # Errors
///
/// Those of `judge` come first. Then P06 if the run doesn't fail. Memory can run out at any time.
pub fn write_shrunk<W: ByteOut>(
    alloc: Global,
    inputs: &[Input],
    plan: &Plan,
    chooser: &mut Chooser,
    runs: u64,
    output: &mut W,
) -> Result<ShrunkRun, ShrinkFault>
    requires runs { 0 < runs }
    // The departures that name the choices of the chooser's run fail first in some way. What is left is a part of them, and
    // its run is as its line says, and fails in this way. No single departure can be left out, unless `stopped` is written.
    ensures shrunk { IfOk result (IsShrunkIn plan.now chooser.old runs
        (program_for plan.now inputs.now)) }
    // Exactly the text was written.
    ensures written { IfOk result (λ shrunk. Appends (W.written output.old) (W.written output.new)
        (shrunk_text shrunk)) }
    ensures count { OnOk result (W.failures output.new ≡ W.failures output.old) }
    // A fault is returned only if its condition holds. A fault of an input names one of these.
    ensures fault { IfErr result (λ fault. IsFault plan.now chooser.old fault
        (program_for plan.now inputs.now)) }
    ensures named { IfErr result (NamesFile (length inputs.now)) }
    ensures untouched { IfErr result
        (λ fault. fault ≢ ShrinkFault.Output → output.new ≡ output.old) }
    // The fault is `Output` only if the writer failed. Then a prefix of the text was written.
    ensures failed { IsErrOf result ShrinkFault.Output
        → W.failures output.new ≡ W.failures output.old + 1 }
    ensures beginning { IsErrOf result ShrinkFault.Output → WroteBeginning plan.now chooser.old runs
        (program_for plan.now inputs.now) (W.written output.old) (W.written output.new) }
{
    let shrunk = shrink_inputs(alloc, inputs, plan, chooser, runs)?;
    match put_shrunk(alloc, &shrunk, output) {
        Ok(()) => Ok(shrunk),
        Err(fault) => {
            drop(shrunk);
            Err(fault)
        }
    }
}
