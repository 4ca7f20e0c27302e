//! Writes where threads stop that can't continue, although they haven't ended.

ghost use Rattle.std.specs.Prelude.{◌≡◌, ◌++◌, IfOk, OnOk, Some};
ghost use Rattle.std.specs.Option.{option_map};
ghost use Rattle.std.specs.String.{string_bytes};
ghost use Rattle.jvms_machine.specs.declared.state.StackFrame.TheVariants.{Call};
ghost use Rattle.machine.specs.Views.{frame_of};
ghost use Rattle.explaining.specs.Stops.{is_known_better, is_stopped, stop_line, stop_lines, stop_text};

use crate::places::{put_call, put_need_part};
use frames::Frame;
use jvms_machine::machine::{Outcome, ThreadId};
use machine::{FrameView, Machine};
use machine_text::thread_count;
use program::Program;
use source_lines::{SourceFiles, put_place};
use std::alloc::{AllocError, Global};

/// Returns whether the thread of this outcome waits for another one, or the instruction table has no turn for it.
fn is_stopped(outcome: Outcome) -> bool
    ensures { result ≡ is_stopped outcome }
{
    matches!(outcome, Outcome::Blocked { .. } | Outcome::Bad { .. })
}

/// Returns whether the source place of a call is known, or the reason why its next instruction can't run.
fn is_known_better(
    alloc: Global,
    program: &Program,
    sources: &SourceFiles,
    call: &Frame<'_>,
) -> Result<bool, AllocError>
    ensures { IfOk result (λ is. is
        ≡ is_known_better program.now sources.now.first sources.now.files.now call.now) }
{
    let mut source = String::new(alloc);
    put_place(&mut source, sources, call.method(), call.place())?;
    let mut need = String::new(alloc);
    put_need_part(&mut need, program, call.instruction())?;
    Ok(!source.as_str().is_empty() || !need.as_str().is_empty())
}

/// Appends where the call of a thread stops, if more is known than the method and the instruction.
fn put_call_stop(
    alloc: Global,
    out: &mut String,
    program: &Program,
    sources: &SourceFiles,
    thread: ThreadId,
    call: &Frame<'_>,
) -> Result<(), AllocError>
    ensures { OnOk result (string_bytes out.new ≡ string_bytes out.old ++ stop_text program.now
        sources.now.first sources.now.files.now thread (Some (Call call.now))) }
{
    if !is_known_better(alloc, program, sources, call)? {
        return Ok(());
    }
    let head = format!(in alloc; "thread {thread} stops")?;
    out.push_str(head.as_str())?;
    put_call(out, program, sources, call)?;
    out.push_str("\n")?;
    Ok(())
}

/// Appends where a thread stops.
fn put_stop(
    alloc: Global,
    out: &mut String,
    program: &Program,
    sources: &SourceFiles,
    thread: ThreadId,
    frame: &Option<FrameView<'_, '_>>,
) -> Result<(), AllocError>
    ensures { OnOk result (string_bytes out.new ≡ string_bytes out.old ++ stop_text program.now
        sources.now.first sources.now.files.now thread (option_map frame_of frame.now)) }
{
    match frame {
        None => Ok(()),
        Some(FrameView::Initialisation { .. }) => Ok(()),
        Some(FrameView::Call(call)) => put_call_stop(alloc, out, program, sources, thread, call),
    }
}

/// Appends where a thread stops, if it does.
fn put_thread(
    alloc: Global,
    out: &mut String,
    sources: &SourceFiles,
    machine: &Machine<'_>,
    thread: ThreadId,
) -> Result<(), AllocError>
    ensures { OnOk result (string_bytes out.new ≡ string_bytes out.old
        ++ stop_line sources.now.first sources.now.files.now machine.now thread) }
{
    if is_stopped(machine.peek(thread)) {
        let frame = machine.frame(thread, 0);
        put_stop(alloc, out, machine.program(), sources, thread, &frame)
    } else {
        Ok(())
    }
}

/// Appends the lines of the threads that stop.
pub(crate) fn put_stops(
    alloc: Global,
    out: &mut String,
    sources: &SourceFiles,
    machine: &Machine<'_>,
) -> Result<(), AllocError>
    ensures { OnOk result (string_bytes out.new ≡ string_bytes out.old
        ++ stop_lines sources.now.first sources.now.files.now machine.now) }
{
    for thread in 0..thread_count(machine) {
        put_thread(alloc, out, sources, machine, thread)?;
    }
    Ok(())
}
