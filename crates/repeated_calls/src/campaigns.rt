//! Runs a campaign, and runs it again if it halts. Prints its table. The words are the number of jobs, the number of
//! workers, a specification, the class of `main`, and class files.
//!
//! With more than one worker, a gate holds job 0 until job 1 is done. If the campaign halts, the rows of its book are
//! compared with the reports of their jobs.

mod book;
mod gate;
mod plans;
mod running;

use refused::linked;
use std::sync::Wait;
use std::thread::Threads;

/// Runs a campaign, and prints its table.
pub(crate) fn perform<R: Threads + Wait + Sync>(
    host: &HostRuntime,
    rt: &R,
    words: &[String],
) -> Option<()> {
    let workers = words.get(1)?.parse().ok()?;
    let program = linked(host, words.get(4..)?)?;
    let printed = running::perform(host, rt, &program, words, workers);
    drop(program);
    printed
}
