//! Makes the lines that report how a run ended.

ghost use Rattle.std.specs.Prelude.{◌≡◌, ◌++◌, IfOk, OnOk};
ghost use Rattle.commands.specs.Lines.{ending_lines, status_line, uncaught_line};

use escapes::put_name;
use jvms_machine::machine::Status;
use machine_text::status_name;
use runs::{Ending, Uncaught};
use std::alloc::{AllocError, Global};

/// Appends the line of a thread that ended with an exception.
fn put_uncaught(alloc: Global, out: &mut Vec<u8>, uncaught: &Uncaught) -> Result<(), AllocError>
    ensures { OnOk result (out.new.items ≡ out.old.items ++ uncaught_line uncaught.now) }
{
    let (thread, class) = uncaught;
    let mut line = format!(in alloc; "uncaught {thread} ")?;
    put_name(&mut line, class.as_slice())?;
    line.push_str("\n")?;
    out.extend_from_slice(line.as_bytes())?;
    Ok(())
}

/// Appends the line of the status.
fn put_status(
    alloc: Global,
    out: &mut Vec<u8>,
    status: Status,
    turns: u64,
) -> Result<(), AllocError>
    ensures { OnOk result (out.new.items ≡ out.old.items ++ status_line status turns) }
{
    let status = status_name(status);
    let line = format!(in alloc; "status {status} turns {turns}\n")?;
    out.extend_from_slice(line.as_bytes())?;
    Ok(())
}

/// Returns the lines of an ending: a line for each thread that ended with an exception, in ascending order, then the
/// status and the number of turns.
pub(crate) fn ending_lines(alloc: Global, ending: &Ending) -> Result<Vec<u8>, AllocError>
    ensures { IfOk result (λ lines. lines.items ≡ ending_lines ending.now) }
{
    let mut lines = Vec::new(alloc);
    for thread in ending.uncaught.as_slice() {
        put_uncaught(alloc, &mut lines, thread)?;
    }
    put_status(alloc, &mut lines, ending.status, ending.turns)?;
    Ok(lines)
}
