//! Explores a program, and prints the answer. Then shrinks the schedule of the run that fails, if one does, and prints its
//! line again. The words are the number of departures, the number of workers, a specification, the class of `main`, and
//! class files.

mod answers;
mod plans;
mod shrunk;

use refused::linked;
use std::sync::Wait;
use std::thread::Threads;

/// Explores a program, and prints the answer.
pub(crate) fn perform<R: Threads + Wait + Sync>(
    host: &HostRuntime,
    rt: &R,
    words: &[String],
) -> Option<()> {
    let program = linked(host, words.get(4..)?)?;
    let printed = answers::perform(host, rt, &program, words);
    drop(program);
    printed
}
