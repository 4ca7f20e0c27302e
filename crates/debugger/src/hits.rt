//! Hits: positions at which the thread of the next choice is at a breakpoint.

ghost use Rattle.std.specs.Prelude.{◌≡◌, ◌&&◌, not, slice_get};
ghost use Rattle.std.specs.List.{list_any};
ghost use Rattle.jvms_machine.specs.declared.state.StackFrame.TheVariants as stack_frame;
ghost use Rattle.debugger.specs.declared.breakpoints.Slot.{Slot as Seen};
ghost use Rattle.debugger.specs.Marks.{mark_at};
ghost use Rattle.debugger.specs.Hits.{hits};
ghost use Rattle.debugger.specs.Timelines.{setting};
ghost use Rattle.debugger_commands.specs.Sessions.{is_frame_at, is_thread_at};
ghost use Rattle.std.specs.Prelude.{Some};

use crate::breakpoints::{Breakpoints, Slot};
use crate::replay::Replay;
use crate::timeline::Timeline;
use debugger_commands::Breakpoint;
use frames::Frame;
use jvms_machine::machine::ThreadId;
use machine::{FrameView, Machine};

/// Returns whether the next instruction of a call's frame is at a breakpoint.
fn is_frame_at(frame: &Frame<'_>, breakpoint: &Breakpoint) -> bool
    ensures { result ≡ is_frame_at (Some (stack_frame.Call frame.now)) breakpoint.now }
{
    let method = frame.method();
    method.class == breakpoint.method.class
        && method.method == breakpoint.method.method
        && frame.place() == breakpoint.instruction as usize
}

/// Returns whether a frame is at the breakpoint of a slot that isn't deleted.
fn is_frame_at_slot(frame: &Frame<'_>, slot: &Slot) -> bool
    ensures { result ≡ is_frame_at (Some (stack_frame.Call frame.now)) slot.now.breakpoint
        && not slot.now.is_deleted }
{
    is_frame_at(frame, &slot.breakpoint) && !slot.is_deleted
}

/// Returns whether a frame is at the breakpoint of one of these slots that isn't deleted.
fn is_frame_at_any_slot(frame: &Frame<'_>, slots: &[Slot]) -> bool
    ensures { result ≡ list_any (λ (s : Seen). is_frame_at (Some (stack_frame.Call frame.now))
        s.breakpoint && not s.is_deleted) slots.now }
{
    slots.iter().any(|slot| is_frame_at_slot(frame, slot))
}

/// Returns whether a frame is at one of these breakpoints.
fn is_frame_at_any(frame: &Frame<'_>, breakpoints: &Breakpoints) -> bool
    ensures { result ≡ list_any (is_frame_at (Some (stack_frame.Call frame.now)))
        breakpoints.now.items }
{
    is_frame_at_any_slot(frame, breakpoints.slots())
}

/// Returns whether a thread has nothing pending and its top frame is at one of these breakpoints.
fn is_thread_at(machine: &Machine<'_>, t: ThreadId, breakpoints: &Breakpoints) -> bool
    ensures { result ≡ is_thread_at breakpoints.now.items (slice_get machine.now.state.threads t) }
{
    if machine.pending(t).is_some() {
        return false;
    }
    match machine.frame(t, 0) {
        Some(FrameView::Call(frame)) => is_frame_at_any(frame, breakpoints),
        Some(FrameView::Initialisation { .. }) => false,
        None => false,
    }
}

impl<'p> Timeline<'p> {
    /// Returns whether a replay's position is a hit.
    pub(crate) fn is_hit(&self, replay: &Replay<'p>, breakpoints: &Breakpoints) -> bool
        requires { replay.now.mark ≡ mark_at (setting self.now) self.now.choices.items
            replay.now.position }
        ensures { result ≡ hits (setting self.now) self.now.choices.items breakpoints.now.items
            replay.now.position }
    {
        match self.choices.get(replay.position) {
            None => false,
            Some(t) => is_thread_at(&replay.mark.machine, *t, breakpoints),
        }
    }
}
