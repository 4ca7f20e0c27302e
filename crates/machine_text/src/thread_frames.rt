//! Frames of a thread, as the debugger writes them.

ghost use Rattle.std.specs.Prelude.{◌≡◌, ◌++◌, IfOk, OnOk};
ghost use Rattle.std.specs.String.{string_bytes};
ghost use Rattle.jvms_machine.specs.declared.state.StackFrame.TheVariants as stack_frame;
ghost use Rattle.machine.specs.Views.{frame_at, frame_of};
ghost use Rattle.machine_text.specs.Parts.{if_there};
ghost use Rattle.machine_text.specs.Threads.{frame_line, frame_text, frames_text};

use crate::place::{put_initialisation, put_place};
use crate::value::put_values;
use frames::Frame;
use jvms_machine::machine::ThreadId;
use machine::{FrameView, Machine};
use program::Program;
use std::alloc::{AllocError, Global};

/// Appends the position of a frame: `C.m.D @i` of a call, or `init C`.
pub(crate) fn put_frame(
    out: &mut String,
    program: &Program,
    frame: &FrameView,
) -> Result<(), AllocError>
    ensures { OnOk result (string_bytes out.new ≡ string_bytes out.old
        ++ frame_text program.now (frame_of frame.now)) }
{
    match frame {
        FrameView::Call(call) => put_place(out, program, call.method(), call.place()),
        FrameView::Initialisation { class, .. } => put_initialisation(out, program, *class),
    }
}

/// Appends the line of a call, with its local variables and its operands, the topmost last.
fn put_call(out: &mut String, program: &Program, call: &Frame) -> Result<(), AllocError>
    ensures { OnOk result (string_bytes out.new ≡ string_bytes out.old
        ++ frame_line program.now (stack_frame.Call call.now)) }
{
    put_place(out, program, call.method(), call.place())?;
    out.push_str(" locals")?;
    put_values(out, call.locals())?;
    out.push_str(" stack")?;
    put_values(out, call.arguments(usize::from(call.height())))?;
    out.push_str("\n")
}

/// Appends the line of a frame.
fn put_frame_line(out: &mut String, program: &Program, frame: &FrameView) -> Result<(), AllocError>
    ensures { OnOk result (string_bytes out.new ≡ string_bytes out.old
        ++ frame_line program.now (frame_of frame.now)) }
{
    match frame {
        FrameView::Call(call) => put_call(out, program, call),
        FrameView::Initialisation { class, .. } => {
            put_initialisation(out, program, *class)?;
            out.push_str("\n")
        }
    }
}

/// Appends the line of a thread's frame at a depth. Appends nothing if there is no such frame.
fn put_frame_at(
    out: &mut String,
    machine: &Machine,
    t: ThreadId,
    depth: usize,
) -> Result<(), AllocError>
    ensures { OnOk result (string_bytes out.new ≡ string_bytes out.old
        ++ if_there (frame_line machine.now.program) (frame_at machine.now t depth)) }
{
    match machine.frame(t, depth) {
        Some(frame) => put_frame_line(out, machine.program(), &frame),
        None => Ok(()),
    }
}

/// Returns the lines of a thread's frames, from the top.
pub fn frames_text(alloc: Global, machine: &Machine, t: ThreadId) -> Result<String, AllocError>
    ensures { IfOk result (λ s. string_bytes s ≡ frames_text machine.now t) }
{
    let mut text = String::new(alloc);
    let count = machine.frame_count(t).unwrap_or(0);
    for depth in 0..count {
        put_frame_at(&mut text, machine, t, depth)?;
    }
    Ok(text)
}
