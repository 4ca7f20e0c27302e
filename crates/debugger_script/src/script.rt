//! Runs scripts line by line.

ghost use Rattle.std.specs.Prelude.{◌≡◌, ◌≢◌, ◌+◌, ◌≤◌, ◌<◌, [], ◌∷◌, ◌++◌, length, take};
ghost use Rattle.std.specs.Prelude.{IfErr, IfOk, IsErrOf, OnErr, OnOk};
ghost use Rattle.std.specs.Io.KnownBytes.{Consumes, IsAtEnd, Keeps};
ghost use Rattle.debugger_script.specs.Failures.{failed_reads, failed_writes};
ghost use Rattle.debugger_script.specs.Scripts.{HasFailed, HasNoEnd, HasRun, HasRunOut, HasStopped, IsCutShort};
ghost use Rattle.debugger_script.specs.Taken.{HasAnswered, HasTaken, IsCutWithin, IsLineCut};
ghost use Rattle.debugger_script.specs.Taken.{IsUnderWay, MayBeRefused};

use crate::fault::ScriptFault;
use crate::line::answer;
use crate::prompt::{NoPrompt, Prompt};
use debugger::Session;
use std::alloc::{AllocError, Global};
use trace::{ByteIn, ByteOut};

/// The number of bytes of one read.
const BUFFER: usize = 4096;

/// The byte that ends a line.
const LF: u8 = b'\n';

/// Executes the command of a line and writes the answer.
fn put_answer<W: ByteOut, P: Prompt>(
    alloc: Global,
    session: &mut Session<'_>,
    output: &mut W,
    prompt: &mut P,
    line: &[u8],
) -> Result<(), ScriptFault>
    ensures answered { OnOk result (HasAnswered line.now
        (W.written output.old) (W.written output.new) session.old session.new) }
    ensures cut { IfErr result (λ e. IsLineCut (MayBeRefused e) line.now
        (W.written output.old) (W.written output.new) session.old session.new) }
    ensures reads { failed_reads result ≡ 0 }
    ensures writes { W.failures output.new ≡ W.failures output.old + failed_writes result }
{
    let Ok(text) = answer(alloc, session, line) else {
        return Err(ScriptFault::Memory);
    };
    match output.write_all(text.as_bytes()) {
        Ok(()) => {
            prompt.explain(text.as_str());
            Ok(())
        }
        Err(_) => Err(ScriptFault::Write),
    }
}

/// Appends a byte to a line.
fn append(line: &mut Vec<u8>, byte: u8) -> Result<(), AllocError>
    ensures { OnOk result (line.new.items ≡ line.old.items ++ byte ∷ []) }
{
    line.push(byte)?;
    Ok(())
}

/// Takes a byte: appends it to the line, or answers the line if the byte ends it.
fn take_byte<W: ByteOut, P: Prompt>(
    alloc: Global,
    session: &mut Session<'_>,
    output: &mut W,
    prompt: &mut P,
    line: &mut Vec<u8>,
    byte: u8,
) -> Result<(), ScriptFault>
    requires { HasNoEnd line.old.items }
    ensures taken { OnOk result (HasTaken line.old.items (byte ∷ []) line.new.items
        (W.written output.old) (W.written output.new) session.old session.new) }
    ensures cut { IfErr result (λ e. IsCutWithin (MayBeRefused e) line.old.items (byte ∷ [])
        (W.written output.old) (W.written output.new) session.old session.new) }
    ensures reads { failed_reads result ≡ 0 }
    ensures writes { W.failures output.new ≡ W.failures output.old + failed_writes result }
{
    if byte != LF {
        return match append(line, byte) {
            Ok(()) => Ok(()),
            Err(_) => Err(ScriptFault::Memory),
        };
    }
    match put_answer(alloc, session, output, prompt, line.as_slice()) {
        Ok(()) => {
            line.clear();
            Ok(())
        }
        Err(fault) => Err(fault),
    }
}

/// Takes bytes one by one.
fn take_bytes<W: ByteOut, P: Prompt>(
    alloc: Global,
    session: &mut Session<'_>,
    output: &mut W,
    prompt: &mut P,
    line: &mut Vec<u8>,
    bytes: &[u8],
) -> Result<(), ScriptFault>
    requires { HasNoEnd line.old.items }
    ensures taken { OnOk result (HasTaken line.old.items bytes.now line.new.items
        (W.written output.old) (W.written output.new) session.old session.new) }
    ensures cut { IfErr result (λ e. IsCutWithin (MayBeRefused e) line.old.items bytes.now
        (W.written output.old) (W.written output.new) session.old session.new) }
    ensures reads { failed_reads result ≡ 0 }
    ensures writes { W.failures output.new ≡ W.failures output.old + failed_writes result }
{
    for byte in bytes {
        match take_byte(alloc, session, output, prompt, line, *byte) {
            Ok(()) => {}
            Err(fault) => return Err(fault),
        }
    }
    Ok(())
}

/// Reads some of the bytes into the buffer. Returns 0 only at the end.
fn read_some<R: ByteIn>(input: &mut R, buffer: &mut [u8]) -> Result<usize, ScriptFault>
    ensures within { IfOk result (λ n. n ≤ length buffer.new) }
    ensures bytes { IfOk result (λ n. Consumes (R.left input.old) (R.left input.new)
        (take n buffer.new)) }
    ensures end { IfOk result (λ n. n ≡ 0 → 0 < length buffer.new → IsAtEnd (R.left input.new)) }
    ensures kept { OnErr result (Keeps (R.left input.old) (R.left input.new)) }
    ensures fault { IfErr result (λ e. e ≡ ScriptFault.Read) }
    ensures reads { R.failures input.new ≡ R.failures input.old + failed_reads result }
{
    match input.read(buffer) {
        Ok(count) => Ok(count),
        Err(_) => Err(ScriptFault::Read),
    }
}

/// Answers all lines that LF ends, and returns the last line, which may lack it.
fn answer_lines<R: ByteIn, W: ByteOut, P: Prompt>(
    alloc: Global,
    session: &mut Session<'_>,
    input: &mut R,
    output: &mut W,
    prompt: &mut P,
) -> Result<Vec<u8>, ScriptFault>
    ensures taken { IfOk result (λ rest. IsUnderWay (R.left input.old) (R.left input.new) rest.items
        (W.written output.old) (W.written output.new) session.old session.new) }
    ensures end { OnOk result (IsAtEnd (R.left input.new)) }
    ensures stopped { IsErrOf result ScriptFault.Read
        → HasStopped (R.left input.old) (R.left input.new)
        (W.written output.old) (W.written output.new) session.old session.new }
    ensures cut { IfErr result (λ e. e ≢ ScriptFault.Read
        → IsCutShort (MayBeRefused e) (R.left input.old) (R.left input.new)
        (W.written output.old) (W.written output.new) session.old session.new) }
    ensures reads { R.failures input.new ≡ R.failures input.old + failed_reads result }
    ensures writes { W.failures output.new ≡ W.failures output.old + failed_writes result }
{
    let mut line = Vec::new(alloc);
    let mut buffer = [0; BUFFER];
    for _ in 0..u64::MAX {
        prompt.ask(session);
        let count = read_some(input, &mut buffer)?;
        if count == 0 {
            return Ok(line);
        }
        match take_bytes(alloc, session, output, prompt, &mut line, &buffer[..count]) {
            Ok(()) => {}
            Err(fault) => return Err(fault),
        }
    }
    // Unreachable before 2^64 reads.
    Err(ScriptFault::Memory)
}

/// Executes the commands of a script as `run_script` does. The prompt asks before each read, and explains each answer
/// that was written.
///
/// # Errors
///
/// Those of `run_script`.
pub fn run_prompted<R: ByteIn, W: ByteOut, P: Prompt>(
    alloc: Global,
    session: &mut Session<'_>,
    input: &mut R,
    output: &mut W,
    prompt: &mut P,
) -> Result<(), ScriptFault>
    ensures ran { OnOk result (HasRun (R.left input.old) (R.left input.new)
        (W.written output.old) (W.written output.new) session.old session.new) }
    ensures stopped { IsErrOf result ScriptFault.Read
        → HasStopped (R.left input.old) (R.left input.new)
        (W.written output.old) (W.written output.new) session.old session.new }
    // If memory ran out for a line, the answers to all lines before it were written. A prefix of its own may have been
    // written, if its command was executed.
    ensures memory { IsErrOf result ScriptFault.Memory
        → HasRunOut (R.left input.old) (R.left input.new)
        (W.written output.old) (W.written output.new) session.old session.new }
    // If a write failed, the same holds, and the line's command was executed.
    ensures failed { IsErrOf result ScriptFault.Write
        → HasFailed (R.left input.old) (R.left input.new)
        (W.written output.old) (W.written output.new) session.old session.new }
    ensures reads { R.failures input.new ≡ R.failures input.old + failed_reads result }
    ensures writes { W.failures output.new ≡ W.failures output.old + failed_writes result }
{
    let line = answer_lines(alloc, session, input, output, prompt)?;
    if line.is_empty() {
        return Ok(());
    }
    put_answer(alloc, session, output, prompt, line.as_slice())
}

/// Executes the commands of a script, one a line, and writes the answer to each line before it executes the next. LF
/// ends a line. The last line may lack it.
///
/// # Errors
///
/// S01 if a read failed: the answers to all whole lines before were written. S02 if a write failed: a prefix of that
/// answer was written. S03 if memory ran out for a line or its answer: its command may have been executed.
pub fn run_script<R: ByteIn, W: ByteOut>(
    alloc: Global,
    session: &mut Session<'_>,
    input: &mut R,
    output: &mut W,
) -> Result<(), ScriptFault>
    ensures ran { OnOk result (HasRun (R.left input.old) (R.left input.new)
        (W.written output.old) (W.written output.new) session.old session.new) }
    ensures stopped { IsErrOf result ScriptFault.Read
        → HasStopped (R.left input.old) (R.left input.new)
        (W.written output.old) (W.written output.new) session.old session.new }
    // If memory ran out for a line, the answers to all lines before it were written. A prefix of its own may have been
    // written, if its command was executed.
    ensures memory { IsErrOf result ScriptFault.Memory
        → HasRunOut (R.left input.old) (R.left input.new)
        (W.written output.old) (W.written output.new) session.old session.new }
    // If a write failed, the same holds, and the line's command was executed.
    ensures failed { IsErrOf result ScriptFault.Write
        → HasFailed (R.left input.old) (R.left input.new)
        (W.written output.old) (W.written output.new) session.old session.new }
    ensures reads { R.failures input.new ≡ R.failures input.old + failed_reads result }
    ensures writes { W.failures output.new ≡ W.failures output.old + failed_writes result }
{
    run_prompted(alloc, session, input, output, &mut NoPrompt)
}
