//! Writes texts to a device. Where it is a terminal, it would obey their control characters.

ghost use Rattle.std.specs.Prelude.{◌≡◌, ◌≢◌, IfErr, IfOk, IsErrOf, OnOk};
ghost use Rattle.std.specs.Io.KnownBytes.{Appends};
ghost use Rattle.std.specs.String.{string_bytes};
ghost use Rattle.trace.specs.Bytes.{AppendsBeginning};
ghost use Rattle.commands.specs.Screen.{lines_for, refusal_line};

use crate::fault::RunFault;
use command_line::{shown_line, shown_lines};
use std::alloc::{AllocError, Global};
use trace::ByteOut;

/// Returns a text of lines for a device. For a terminal its control characters but line ends are written as `\u` with
/// four hexadecimal digits.
pub(crate) fn lines_for(
    alloc: Global,
    is_terminal: bool,
    text: String,
) -> Result<String, AllocError>
    ensures { IfOk result
        (λ lines. string_bytes lines ≡ lines_for is_terminal (string_bytes text)) }
{
    if is_terminal {
        shown_lines(alloc, text.as_str())
    } else {
        Ok(text)
    }
}

/// Returns the line of a refusal for standard error. For a terminal the text's control characters are written as `\u`
/// with four hexadecimal digits.
fn refusal_line(alloc: Global, is_terminal: bool, text: &str) -> Result<String, AllocError>
    ensures { IfOk result (λ line. string_bytes line ≡ refusal_line is_terminal text.now) }
{
    if is_terminal {
        let shown = shown_line(alloc, text)?;
        format!(in alloc; "jvmx: {shown}\n")
    } else {
        format!(in alloc; "jvmx: {text}\n")
    }
}

/// Writes the line of a refusal. If memory ran out for it, nothing is written.
pub(crate) fn write_refusal<E: ByteOut>(
    alloc: Global,
    is_terminal: bool,
    text: &str,
    errors: &mut E,
) -> Result<(), RunFault>
    ensures written { OnOk result (Appends
        (E.written errors.old) (E.written errors.new) (refusal_line is_terminal text.now)) }
    ensures beginning { IsErrOf result RunFault.Output → AppendsBeginning
        (E.written errors.old) (E.written errors.new) (refusal_line is_terminal text.now) }
    ensures untouched { IfErr result (λ fault. fault ≢ RunFault.Output → errors.new ≡ errors.old) }
{
    let line = refusal_line(alloc, is_terminal, text)?;
    errors.write_all(line.as_bytes())?;
    Ok(())
}
