//! Executes the debugger's commands of standard input, and prints their answers: `Session::new`, and
//! `Session::command` for each line. A command is repeated only if memory ran out. The session has the 25 choices of
//! thread 0 in the run of gcd(48, 36). The words are class files.

mod answers;
mod script;
mod session;

use refused::linked;

/// Executes the script of standard input in a session of a program.
pub(crate) fn perform(rt: &HostRuntime, names: &[String]) -> Option<()> {
    let script = script::read(rt)?;
    let program = linked(rt, names)?;
    let answered = session::debug(rt, &program, script.as_slice());
    drop(program);
    answered
}
