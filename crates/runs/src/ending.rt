//! The ending of a run: its turns, result, output, status and uncaught exceptions.

ghost use Rattle.std.specs.Prelude.{◌≡◌, ◌++◌, IfOk, OnOk};
ghost use Rattle.machine.specs.Views.{uncaught};
ghost use Rattle.runs.specs.Choices.{chooser_after_choices};
ghost use Rattle.runs.specs.Endings.{ending_in, ending_of, uncaught_of, uncaught_threads};

use crate::counted::count_turns;
use jvms_machine::value::Value;
use machine::{Machine, Status, ThreadId};
use schedule::Chooser;
use shared_data::items::Items;
use std::alloc::{AllocError, Global};
use trace::Recording;

/// A thread that ended with an exception, and the exception's class, as UTF-16 code units.
pub type Uncaught = (ThreadId, Items<u16>);

/// The ending of a run.
#[derive(Debug, Drop)]
pub struct Ending {
    /// The number of turns.
    pub turns: u64,
    /// The value that the entry's method returned. `None` if it is void, or hasn't returned.
    pub result: Option<Value>,
    /// The bytes that the program wrote.
    pub output: Items<u8>,
    /// The status of the machine after the last turn.
    pub status: Status,
    /// The threads that ended with an exception, in rising order.
    pub uncaught: Items<Uncaught>,
}

/// Appends a thread, with its exception's class, if it ended with an exception.
fn push_uncaught(
    alloc: Global,
    machine: &Machine<'_>,
    thread: ThreadId,
    threads: &mut Vec<Uncaught>,
) -> Result<(), AllocError>
    ensures { OnOk result (threads.new.items
        ≡ threads.old.items ++ uncaught_of thread (uncaught machine.now thread)) }
{
    let Some(class) = machine.uncaught(thread) else {
        return Ok(());
    };
    let class = class.to_vec(alloc)?;
    threads.push((thread, Items::from_vec(class)))?;
    Ok(())
}

/// Returns the threads that ended with an exception, in rising order, each with the exception's class.
pub fn uncaught_threads(alloc: Global, machine: &Machine<'_>) -> Result<Items<Uncaught>, AllocError>
    ensures { IfOk result (λ threads. threads ≡ uncaught_threads machine.now.state) }
{
    // There are at most as many threads as the limit, so each number fits `ThreadId`.
    machine.state_is_sound();
    let _limits = machine.limits();
    let mut threads = Vec::new(alloc);
    for t in 0..machine.thread_count() {
        push_uncaught(alloc, machine, t as ThreadId, &mut threads)?;
    }
    Ok(Items::from_vec(threads))
}

/// Returns the ending of a run that took this number of turns and left this machine.
pub fn ending_after(alloc: Global, machine: &Machine<'_>, turns: u64) -> Result<Ending, AllocError>
    ensures { IfOk result (λ ending. ending ≡ ending_in turns machine.now) }
{
    let output = machine.output().to_vec(alloc)?;
    Ok(Ending {
        turns,
        result: machine.result(),
        output: Items::from_vec(output),
        status: machine.status(),
        uncaught: uncaught_threads(alloc, machine)?,
    })
}

/// Takes the turns that a chooser gives, at most `most` of them, and returns the ending of the run. Keeps no choices,
/// outcomes or items, so a run takes no memory for them, however long it is. A seeded run lists the enabled threads.
pub fn run_to_end(
    alloc: Global,
    machine: &mut Machine<'_>,
    chooser: &mut Chooser,
    most: u64,
) -> Result<Ending, AllocError>
    ensures ending { IfOk result (λ ending. ending ≡ ending_of most chooser.old machine.old) }
    ensures chooser { OnOk result
        (chooser.new ≡ chooser_after_choices most chooser.old machine.old) }
{
    let turns = count_turns(alloc, machine, chooser, most, &mut Recording::of_nothing())?;
    ending_after(alloc, machine, turns)
}
