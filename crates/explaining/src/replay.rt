//! Takes the turns of a run again.

ghost use Rattle.std.specs.Prelude.{◌≡◌, List, ℕ, IfOk, Ok};
ghost use Rattle.std.specs.String.{string_bytes};
ghost use Rattle.jvms_machine.specs.Opening.{start_of_entry};
ghost use Rattle.jvms_machine.specs.Start.{Start};
ghost use Rattle.machine.specs.Started.{opened_machine};
ghost use Rattle.explaining.specs.EventTurns.{event_turns};
ghost use Rattle.explaining.specs.Explanations.{is_stuck, stuck_lines, threads_part};

use crate::event_turns::{EventTurn, event_turns};
use crate::stops::put_stops;
use crate::throws::throw_lines;
use jvms_machine::machine::{Entry, Limits, Status, ThreadId};
use machine::{Machine, MachineFault};
use machine_text::threads_text;
use program::Program;
use runs::Ending;
use source_lines::SourceFiles;
use std::alloc::{AllocError, Global};

/// The results of taking the turns of a run again.
#[derive(Debug, Drop)]
pub(crate) struct Replayed {
    /// The turn and the place of each event.
    pub(crate) events: Vec<EventTurn>,
    /// The lines of uncaught exceptions, followed by those of the threads if none can continue.
    pub(crate) lines: String,
}

/// Returns whether no thread can continue, although not all have ended.
fn is_stuck(status: Status) -> bool
    ensures { result ≡ is_stuck status }
{
    matches!(status, Status::Deadlocked | Status::Stalled)
}

/// Returns the lines of the threads, if they are stuck.
fn threads_part(
    alloc: Global,
    sources: &SourceFiles,
    status: Status,
    machine: &Machine,
) -> Result<String, AllocError>
    ensures { IfOk result (λ text. string_bytes text
        ≡ threads_part sources.now.first sources.now.files.now status machine.now) }
{
    let mut text = String::new(alloc);
    if is_stuck(status) {
        put_stops(alloc, &mut text, sources, machine)?;
        let threads = threads_text(alloc, machine)?;
        text.push_str(threads.as_str())?;
    }
    Ok(text)
}

/// Takes the turns of choices, starting with a machine's opening state.
fn replay_on(
    alloc: Global,
    machine: &mut Machine<'_>,
    sources: &SourceFiles,
    choices: &[ThreadId],
    ending: &Ending,
) -> Result<Replayed, AllocError>
    ensures events { IfOk result (λ r. r.events.items ≡ event_turns 1 machine.old choices.now) }
    ensures lines { IfOk result (λ r. string_bytes r.lines ≡ stuck_lines sources.now.first
        sources.now.files.now machine.old choices.now ending.now.uncaught ending.now.status) }
{
    let mut lines = throw_lines(alloc, machine, sources, choices, ending.uncaught.as_slice())?;
    let events = event_turns(alloc, machine, choices)?;
    let threads = threads_part(alloc, sources, ending.status, machine)?;
    lines.push_str(threads.as_str())?;
    Ok(Replayed { events, lines })
}

/// Takes the turns of choices again, from an entry of a program on. `ending` is how they ended.
pub(crate) fn replay(
    alloc: Global,
    program: &Program,
    sources: &SourceFiles,
    limits: Limits,
    entry: &Entry,
    choices: &[ThreadId],
    ending: &Ending,
) -> Result<Replayed, MachineFault>
    ensures { IfOk result (λ r. (start : Start)
        × (start_of_entry program.now limits entry.now ≡ Ok start)
        × (r.events.items ≡ event_turns 1 (opened_machine program.now limits start) choices.now)
        × (string_bytes r.lines ≡ stuck_lines sources.now.first sources.now.files.now
        (opened_machine program.now limits start) choices.now ending.now.uncaught
        ending.now.status)) }
{
    let mut machine = Machine::new(alloc, program, limits, entry)?;
    let replayed = replay_on(alloc, &mut machine, sources, choices, ending);
    drop(machine);
    match replayed {
        Ok(replayed) => Ok(replayed),
        Err(_) => Err(MachineFault::Memory),
    }
}
