//! Finds where the uncaught exceptions were thrown.

ghost use Rattle.std.specs.Prelude.{◌≡◌, IfOk, OnOk};
ghost use Rattle.std.specs.Option.{option_map};
ghost use Rattle.std.specs.String.{string_bytes};
ghost use Rattle.runs.specs.Choices.{after_turn};
ghost use Rattle.explaining.specs.Throws.{last_throw, later_throw, line_in, no_throw, pending_in, throw_line, throw_lines, throws};

use crate::places::put_frame_part;
use jvms_machine::machine::{Outcome, ThreadId};
use machine::Machine;
use runs::Uncaught;
use source_lines::SourceFiles;
use std::alloc::{AllocError, Global};
use trace::Recording;

/// A throw: the reference of the exception, and the line with its place. The reference is 0 if there is no throw.
#[derive(Debug, Drop)]
struct Throw {
    exception: u32,
    line: String,
}

/// Returns whether the turn of a thread leaves an exception pending when none was before.
fn throws(machine: &Machine<'_>, thread: ThreadId) -> bool
    ensures { result ≡ throws machine.now thread }
{
    machine.pending(thread).is_none() && machine.peek(thread) == Outcome::Raised
}

/// Returns the line of the throw of a thread. `turn` is the number of its turn.
fn throw_line(
    alloc: Global,
    machine: &Machine<'_>,
    sources: &SourceFiles,
    thread: ThreadId,
    turn: u64,
) -> Result<String, AllocError>
    ensures { IfOk result (λ line. string_bytes line
        ≡ throw_line sources.now.first sources.now.files.now thread turn machine.now) }
{
    let mut line = format!(in alloc; "thread {thread} threw at turn {turn}")?;
    put_frame_part(
        &mut line,
        machine.program(),
        sources,
        &machine.frame(thread, 0),
    )?;
    line.push_str("\n")?;
    Ok(line)
}

/// Returns the line of the throw of a thread, if the turn of `choice` is one.
fn line_in(
    alloc: Global,
    machine: &Machine<'_>,
    sources: &SourceFiles,
    choice: ThreadId,
    thread: ThreadId,
    turn: u64,
) -> Result<Option<String>, AllocError>
    ensures { IfOk result (λ line. option_map string_bytes line
        ≡ line_in sources.now.first sources.now.files.now thread turn machine.now choice) }
{
    if choice == thread && throws(machine, thread) {
        let line = throw_line(alloc, machine, sources, thread, turn)?;
        Ok(Some(line))
    } else {
        Ok(None)
    }
}

/// Returns the exception that is pending in a thread, or 0 if there is none.
fn pending_in(machine: &Machine<'_>, thread: ThreadId) -> u32
    ensures { result ≡ pending_in machine.now thread }
{
    machine.pending(thread).unwrap_or(0)
}

/// Replaces an earlier throw by a later one, if there is one. If both threw the same exception, the earlier throw is
/// kept.
fn put_later(last: &mut Throw, exception: u32, line: Option<String>)
    ensures { record { exception = last.new.exception; line = string_bytes last.new.line }
        ≡ later_throw (record { exception = last.old.exception; line = string_bytes last.old.line })
        exception (option_map string_bytes line) }
{
    match line {
        None => {}
        Some(line) => {
            if last.exception != exception {
                *last = Throw { exception, line };
            }
        }
    }
}

/// Takes the turn of a choice. If it is a throw of the thread, it replaces the last one.
fn take_turn(
    alloc: Global,
    machine: &mut Machine<'_>,
    sources: &SourceFiles,
    choice: ThreadId,
    thread: ThreadId,
    turn: u64,
    last: &mut Throw,
) -> Result<(), AllocError>
    ensures machine { OnOk result (machine.new ≡ after_turn machine.old choice) }
    ensures last { OnOk result
        (record { exception = last.new.exception; line = string_bytes last.new.line }
        ≡ later_throw (record { exception = last.old.exception; line = string_bytes last.old.line })
        (pending_in (after_turn machine.old choice) thread)
        (line_in sources.now.first sources.now.files.now thread turn machine.old choice)) }
{
    let line = line_in(alloc, machine, sources, choice, thread, turn)?;
    machine.step_recorded(choice, &mut Recording::of_nothing())?;
    put_later(last, pending_in(machine, thread), line);
    Ok(())
}

/// Returns the line of the last throw of a thread in the turns of choices. It is empty if the thread threw nothing.
fn last_throw(
    alloc: Global,
    machine: &mut Machine<'_>,
    sources: &SourceFiles,
    choices: &[ThreadId],
    thread: ThreadId,
) -> Result<String, AllocError>
    ensures { IfOk result (λ line. string_bytes line ≡ (last_throw sources.now.first
        sources.now.files.now thread no_throw 1 machine.old choices.now).line) }
{
    let mut last = Throw {
        exception: 0,
        line: String::new(alloc),
    };
    for (place, choice) in choices.iter().enumerate() {
        take_turn(
            alloc,
            machine,
            sources,
            *choice,
            thread,
            place as u64 + 1,
            &mut last,
        )?;
    }
    Ok(last.line)
}

/// Returns the line of the last throw of a thread in the turns of choices, from a machine that stays as it is.
fn last_throw_from(
    alloc: Global,
    opening: &Machine<'_>,
    sources: &SourceFiles,
    choices: &[ThreadId],
    thread: ThreadId,
) -> Result<String, AllocError>
    ensures { IfOk result (λ line. string_bytes line ≡ (last_throw sources.now.first
        sources.now.files.now thread no_throw 1 opening.now choices.now).line) }
{
    let mut machine = opening.copy()?;
    let line = last_throw(alloc, &mut machine, sources, choices, thread);
    drop(machine);
    line
}

/// Returns the lines of the last throws of threads in the turns of choices. It takes the turns once for each thread.
pub(crate) fn throw_lines(
    alloc: Global,
    opening: &Machine<'_>,
    sources: &SourceFiles,
    choices: &[ThreadId],
    uncaught: &[Uncaught],
) -> Result<String, AllocError>
    ensures { IfOk result (λ lines. string_bytes lines ≡ throw_lines sources.now.first
        sources.now.files.now opening.now choices.now uncaught.now) }
{
    let mut lines = String::new(alloc);
    for (thread, _) in uncaught {
        let line = last_throw_from(alloc, opening, sources, choices, *thread)?;
        lines.push_str(line.as_str())?;
    }
    Ok(lines)
}
