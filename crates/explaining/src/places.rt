//! Writes where the calls of a run are, in the program and in its sources.

ghost use Rattle.std.specs.Prelude.{◌≡◌, ◌++◌, OnOk, option_copied};
ghost use Rattle.std.specs.Option.{option_map};
ghost use Rattle.std.specs.String.{string_bytes};
ghost use Rattle.jvms_machine.specs.Steps.{instruction_at};
ghost use Rattle.machine.specs.Views.{frame_of};
ghost use Rattle.explaining.specs.Places.{at_part, call_part, frame_part, need_part};

use frames::Frame;
use jvms_program::number::MethodNumber;
use jvms_program::program::Instruction;
use machine::FrameView;
use machine_text::put_place;
use needs::put_need;
use program::Program;
use source_lines::SourceFiles;
use std::alloc::AllocError;

/// Appends an instruction of a method: ` at C.m.D @i (F.java:12)`.
pub(crate) fn put_at(
    out: &mut String,
    program: &Program,
    sources: &SourceFiles,
    method: MethodNumber,
    place: usize,
) -> Result<(), AllocError>
    ensures { OnOk result (string_bytes out.new ≡ string_bytes out.old
        ++ at_part program.now sources.now.first sources.now.files.now method place) }
{
    out.push_str(" at ")?;
    put_place(out, program, method, place)?;
    source_lines::put_place(out, sources, method, place)
}

/// Appends the reason why an instruction can't run, if there is one.
pub(crate) fn put_need_part(
    out: &mut String,
    program: &Program,
    instruction: Option<&Instruction>,
) -> Result<(), AllocError>
    ensures { OnOk result (string_bytes out.new ≡ string_bytes out.old
        ++ need_part program.now (option_copied instruction.entry)) }
{
    match instruction {
        None => Ok(()),
        Some(instruction) => put_need(out, program, instruction),
    }
}

/// Appends where a call is, and why its next instruction can't run, if there is a reason.
pub(crate) fn put_call(
    out: &mut String,
    program: &Program,
    sources: &SourceFiles,
    call: &Frame<'_>,
) -> Result<(), AllocError>
    ensures { OnOk result (string_bytes out.new ≡ string_bytes out.old
        ++ call_part program.now sources.now.first sources.now.files.now call.now) }
{
    put_at(out, program, sources, call.method(), call.place())?;
    put_need_part(out, program, call.instruction())
}

/// Appends where a call is, if a thread is in one.
pub(crate) fn put_frame_part(
    out: &mut String,
    program: &Program,
    sources: &SourceFiles,
    frame: &Option<FrameView<'_, '_>>,
) -> Result<(), AllocError>
    ensures { OnOk result (string_bytes out.new ≡ string_bytes out.old ++ frame_part program.now
        sources.now.first sources.now.files.now (option_map frame_of frame.now)) }
{
    match frame {
        None => Ok(()),
        Some(FrameView::Initialisation { .. }) => Ok(()),
        Some(FrameView::Call(call)) => put_call(out, program, sources, call),
    }
}
