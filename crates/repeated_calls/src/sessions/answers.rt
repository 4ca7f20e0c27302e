//! Answers commands.

use debugger::{Command, DebugFault, Session, View};
use debugger_script::{fault_text, view_text};
use refused::again;
use std::alloc::{AllocError, Global};

/// Executes the command of a line.
fn carry_out(alloc: Global, session: &mut Session<'_>, line: &[u8]) -> Result<View, DebugFault> {
    let command = Command::parse(alloc, line)?;
    session.command(command)
}

/// Executes the command of a line. Repeats it if memory ran out.
fn answer_of(rt: &HostRuntime, session: &mut Session<'_>, line: &[u8]) -> Result<View, DebugFault> {
    let answer = carry_out(rt.alloc(), session, line);
    if answer != Err(DebugFault::Memory) {
        return answer;
    }
    let _printed = eprintln!(rt; "command: {}", DebugFault::Memory);
    carry_out(rt.alloc(), session, line)
}

/// Returns the text of an answer.
fn text_of(
    alloc: Global,
    session: &Session<'_>,
    answer: Result<View, DebugFault>,
) -> Result<String, AllocError> {
    match answer {
        Ok(view) => view_text(alloc, session, view),
        Err(fault) => fault_text(alloc, fault),
    }
}

/// Executes the command of a line, and prints its answer.
fn answer(rt: &HostRuntime, session: &mut Session<'_>, line: &[u8]) -> Option<()> {
    let answer = answer_of(rt, session, line);
    let text = again!(rt, "answer", text_of(rt.alloc(), session, answer))?;
    print!(rt; "{text}").ok()
}

/// Executes the commands of all lines, and prints their answers.
pub(crate) fn answer_all(rt: &HostRuntime, session: &mut Session<'_>, script: &[u8]) -> Option<()> {
    for line in script.split(|byte| *byte == b'\n') {
        if !line.is_empty() {
            answer(rt, session, line)?;
        }
    }
    Some(())
}
