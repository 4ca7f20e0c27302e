//! Executes a script on a program.

ghost use Rattle.std.specs.Prelude.{◌≡◌, ◌+◌, length, IfErr, IsErrOf, OnOk};
ghost use Rattle.debugger_script.specs.Scripts.{HasFailed, HasRun, HasRunOut, HasStopped};
ghost use Rattle.debugging.specs.Sessions.{HasDebugged, session_of_inputs, session_on};
ghost use Rattle.debugging.specs.Stops.{IsBefore, IsStop, NamesFile, failed_reads, failed_writes};

use crate::opening::session_on;
use crate::stop::DebugStop;
use debugger_script::{Prompt, ScriptFault, run_prompted};
use inputs::Input;
use judge::program_of;
use jvms_machine::machine::{Entry, Limits};
use program::Program;
use schedule::Chooser;
use std::alloc::Global;
use trace::{ByteIn, ByteOut};
use turn_limit::TurnLimit;

/// Debugs a program from an entry on, as `debug` does.
fn debug_program<R: ByteIn, W: ByteOut, P: Prompt>(
    alloc: Global,
    program: &Program,
    limits: Limits,
    entry: &Entry,
    chooser: Chooser,
    most: u64,
    input: &mut R,
    output: &mut W,
    prompt: &mut P,
) -> Result<(), DebugStop>
    ensures ran { OnOk result (HasDebugged
        (session_on most chooser limits program.now entry.now)
        (HasRun (R.left input.old) (R.left input.new)
        (W.written output.old) (W.written output.new))) }
    ensures stopped { IsErrOf result (DebugStop.Script ScriptFault.Read) → HasDebugged
        (session_on most chooser limits program.now entry.now)
        (HasStopped (R.left input.old) (R.left input.new)
        (W.written output.old) (W.written output.new)) }
    ensures memory { IsErrOf result (DebugStop.Script ScriptFault.Memory) → HasDebugged
        (session_on most chooser limits program.now entry.now)
        (HasRunOut (R.left input.old) (R.left input.new)
        (W.written output.old) (W.written output.new)) }
    ensures failed { IsErrOf result (DebugStop.Script ScriptFault.Write) → HasDebugged
        (session_on most chooser limits program.now entry.now)
        (HasFailed (R.left input.old) (R.left input.new)
        (W.written output.old) (W.written output.new)) }
    ensures fault { IfErr result (λ stop. IsStop stop
        (session_on most chooser limits program.now entry.now)) }
    ensures named { IfErr result (λ stop. NamesFile 0 stop) }
    ensures unread { IfErr result (λ stop. IsBefore stop → input.new ≡ input.old) }
    ensures unwritten { IfErr result (λ stop. IsBefore stop → output.new ≡ output.old) }
    ensures reads { R.failures input.new ≡ R.failures input.old + failed_reads result }
    ensures writes { W.failures output.new ≡ W.failures output.old + failed_writes result }
{
    let mut session = session_on(alloc, program, limits, entry, chooser, most)?;
    let ran = run_prompted(alloc, &mut session, input, output, prompt);
    drop(session);
    match ran {
        Ok(()) => Ok(()),
        Err(fault) => Err(DebugStop::Script(fault)),
    }
}

/// Debugs the program of class files and sources. Begins a session before the first of a chooser's choices, at most
/// this number of them. Executes the commands that are read, one a line, and writes the answer to each line before it
/// executes the next.
///
/// # Errors
///
/// Those of `judge`, in which case nothing was read or written. Else those of `run_script`.
#[tactic(auto, unfolding(crate::specs::Sessions::session_of_inputs))]
pub fn debug<R: ByteIn, W: ByteOut, P: Prompt>(
    alloc: Global,
    inputs: &[Input],
    limits: Limits,
    entry: &Entry,
    chooser: Chooser,
    most: TurnLimit,
    input: &mut R,
    output: &mut W,
    prompt: &mut P,
) -> Result<(), DebugStop>
    // The session is on the run of the chooser's choices, by the instruction table. The answers to all lines were
    // written.
    ensures ran { OnOk result (HasDebugged
        (session_of_inputs most chooser limits inputs.now entry.now)
        (HasRun (R.left input.old) (R.left input.new)
        (W.written output.old) (W.written output.new))) }
    // After a failed read, the answers to all whole lines before it were written.
    ensures stopped { IsErrOf result (DebugStop.Script ScriptFault.Read) → HasDebugged
        (session_of_inputs most chooser limits inputs.now entry.now)
        (HasStopped (R.left input.old) (R.left input.new)
        (W.written output.old) (W.written output.new)) }
    // If memory ran out for a line or its answer, the answers to all lines before it were written. If its command was
    // executed, so was a prefix of its own answer.
    ensures memory { IsErrOf result (DebugStop.Script ScriptFault.Memory) → HasDebugged
        (session_of_inputs most chooser limits inputs.now entry.now)
        (HasRunOut (R.left input.old) (R.left input.new)
        (W.written output.old) (W.written output.new)) }
    // After a failed write the line's command was executed. All answers before its own were written, and a prefix of
    // that.
    ensures failed { IsErrOf result (DebugStop.Script ScriptFault.Write) → HasDebugged
        (session_of_inputs most chooser limits inputs.now entry.now)
        (HasFailed (R.left input.old) (R.left input.new)
        (W.written output.old) (W.written output.new)) }
    // A refusal before the script is returned only if its condition holds. A fault of an input names one of these.
    ensures fault { IfErr result (λ stop. IsStop stop
        (session_of_inputs most chooser limits inputs.now entry.now)) }
    ensures named { IfErr result (λ stop. NamesFile (length inputs.now) stop) }
    ensures unread { IfErr result (λ stop. IsBefore stop → input.new ≡ input.old) }
    ensures unwritten { IfErr result (λ stop. IsBefore stop → output.new ≡ output.old) }
    ensures reads { R.failures input.new ≡ R.failures input.old + failed_reads result }
    ensures writes { W.failures output.new ≡ W.failures output.old + failed_writes result }
{
    let program = program_of(alloc, inputs)?;
    let most = most.turns();
    let debugged = debug_program(
        alloc, &program, limits, entry, chooser, most, input, output, prompt,
    );
    drop(program);
    debugged
}
