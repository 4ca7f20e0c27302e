//! Makes the texts of answers.

ghost use Rattle.std.specs.Prelude.{◌≡◌, ◌-◌, ◌++◌, IfOk, codes, slice_get};
ghost use Rattle.std.specs.Fmt.{decimal};
ghost use Rattle.std.specs.String.{string_bytes};
ghost use Rattle.debugger_script.specs.Answers.{breakpoint_text, fault_text, last_text};
ghost use Rattle.debugger_script.specs.Answers.{position_text, view_text};

use debugger::{Breakpoint, DebugFault, Session, View};
use jvms_machine::machine::{Outcome, ThreadId};
use machine_text::{
    class_text, frames_text, object_text, outcome_text, output_text, place_text, status_name,
    threads_text,
};
use program::Program;
use std::alloc::{AllocError, Global};
use trace_text::write_items;

/// Returns the text of the last choice before a position. It is empty if there is none.
fn last_text(
    alloc: Global,
    program: &Program,
    thread: Option<ThreadId>,
    outcome: Option<Outcome>,
) -> Result<String, AllocError>
    ensures { IfOk result (λ s. string_bytes s ≡ last_text program.now thread outcome) }
{
    let Some(thread) = thread else {
        return Ok(String::new(alloc));
    };
    let Some(outcome) = outcome else {
        return Ok(String::new(alloc));
    };
    let outcome = outcome_text(alloc, program, outcome)?;
    let mut text = format!(in alloc; ", thread {thread} ")?;
    text.push_str(outcome.as_str())?;
    Ok(text)
}

/// Returns the thread of the last choice before the position.
fn last_thread(session: &Session<'_>) -> Option<ThreadId>
    ensures { result ≡ slice_get session.now.session.choices (session.now.session.position - 1) }
{
    let index = session.position().saturating_sub(1);
    session.choices().get(index).copied()
}

/// Returns the line of the position, with the status of the machine and the last choice.
fn position_text(alloc: Global, session: &Session<'_>) -> Result<String, AllocError>
    ensures { IfOk result (λ s. string_bytes s
        ≡ position_text session.now.setting session.now.session) }
{
    let machine = session.machine();
    let position = session.position();
    let count = session.choices().len();
    let status = status_name(machine.status());
    let thread = last_thread(session);
    let last = last_text(alloc, machine.program(), thread, session.last_outcome())?;
    let text = format!(in alloc; "at {position} of {count} {status}{last}\n")?;
    Ok(text)
}

/// Returns the line of a breakpoint that was added.
fn breakpoint_text(
    alloc: Global,
    program: &Program,
    breakpoint: Breakpoint,
) -> Result<String, AllocError>
    ensures { IfOk result (λ s. string_bytes s ≡ breakpoint_text program.now breakpoint) }
{
    let Breakpoint {
        number,
        method,
        instruction,
    } = breakpoint;
    let place = place_text(alloc, program, method, instruction as usize)?;
    let mut text = format!(in alloc; "breakpoint {number} at ")?;
    text.push_str(place.as_str())?;
    text.push_str("\n")?;
    Ok(text)
}

/// Returns the line of a breakpoint that was removed.
fn removed_text(alloc: Global, number: u32) -> Result<String, AllocError>
    ensures { IfOk result (λ s. string_bytes s ≡ codes "deleted " ++ decimal number ++ codes "\n") }
{
    let text = format!(in alloc; "deleted {number}\n")?;
    Ok(text)
}

/// Returns the text of a view of a session at its position.
pub fn view_text(alloc: Global, session: &Session<'_>, view: View) -> Result<String, AllocError>
    ensures { IfOk result (λ s. string_bytes s
        ≡ view_text session.now.setting session.now.session view) }
{
    let machine = session.machine();
    match view {
        View::Position => position_text(alloc, session),
        View::Added(breakpoint) => breakpoint_text(alloc, machine.program(), breakpoint),
        View::Removed(number) => removed_text(alloc, number),
        View::Threads => threads_text(alloc, machine),
        View::Frames(t) => frames_text(alloc, machine, t),
        View::Object(reference) => object_text(alloc, machine, reference),
        View::Class(class) => class_text(alloc, machine, class),
        View::Trace => write_items(alloc, session.items()),
        View::Output => output_text(alloc, machine),
    }
}

/// Returns the line of a fault.
fn fault_line(fault: DebugFault) -> &'static str
    ensures { result.now ≡ fault_text fault }
{
    match fault {
        DebugFault::UnknownCommand => "fault B01 UnknownCommand\n",
        DebugFault::Number => "fault B02 Number\n",
        DebugFault::NoThread => "fault B03 NoThread\n",
        DebugFault::NoObject => "fault B04 NoObject\n",
        DebugFault::NoBreakpoint => "fault B05 NoBreakpoint\n",
        DebugFault::NoPlace => "fault B06 NoPlace\n",
        DebugFault::Memory => "fault B07 Memory\n",
    }
}

/// Returns the text of a fault.
pub fn fault_text(alloc: Global, fault: DebugFault) -> Result<String, AllocError>
    ensures { IfOk result (λ s. string_bytes s ≡ fault_text fault) }
{
    let mut text = String::new(alloc);
    text.push_str(fault_line(fault))?;
    Ok(text)
}
