//! Executes the command of a line.

ghost use Rattle.std.specs.Prelude.{◌≡◌, IfOk, OnErr};
ghost use Rattle.std.specs.String.{string_bytes};
ghost use Rattle.debugger_script.specs.Answers.{IsAnswer};
ghost use Rattle.debugger_script.specs.Carried.{IsAnswerOf, IsCommandUnanswered};
ghost use Rattle.debugger_script.specs.Carried.{IsLineUnanswered, IsRefusal};

use crate::answers::{fault_text, view_text};
use debugger::{Command, DebugFault, Session};
use std::alloc::{AllocError, Global};

/// Returns the text of a fault. Lack of memory is no answer, so it is returned as an error.
fn refusal_text(alloc: Global, fault: DebugFault) -> Result<String, AllocError>
    ensures { IfOk result (λ s. IsRefusal fault (string_bytes s)) }
{
    match fault {
        DebugFault::Memory => Err(AllocError),
        _ => fault_text(alloc, fault),
    }
}

/// Executes a command and returns the answer. If memory runs out, the command may have been executed.
fn carry_out(
    alloc: Global,
    session: &mut Session<'_>,
    command: Command,
) -> Result<String, AllocError>
    ensures setting { session.new.setting ≡ session.old.setting }
    ensures answer { IfOk result (λ s. IsAnswerOf session.old command (string_bytes s)
        session.new) }
    ensures memory { OnErr result (IsCommandUnanswered session.old command session.new) }
{
    match session.command(command) {
        Ok(view) => view_text(alloc, session, view),
        Err(fault) => refusal_text(alloc, fault),
    }
}

/// Executes the command that a line spells, and returns the answer. If memory runs out, the command may have been
/// executed.
pub(crate) fn answer(
    alloc: Global,
    session: &mut Session<'_>,
    line: &[u8],
) -> Result<String, AllocError>
    ensures setting { session.new.setting ≡ session.old.setting }
    ensures answer { IfOk result (λ s. IsAnswer session.old.setting session.old.session line.now
        (string_bytes s) session.new.session) }
    ensures memory { OnErr result (IsLineUnanswered session.old line.now session.new) }
{
    match Command::parse(alloc, line) {
        Ok(command) => carry_out(alloc, session, command),
        Err(fault) => refusal_text(alloc, fault),
    }
}
