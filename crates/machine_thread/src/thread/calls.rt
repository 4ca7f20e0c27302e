//! Calls of a thread: their arguments, frames and returns (JVMS 2.6, 6.5).

ghost use Rattle.std.specs.Prelude.{◌≡◌, ◌≤◌, ◌∷◌, [], drop, take, length, reverse, Some, OnOk, OnErr};
ghost use Rattle.jvms_machine.specs.declared.state.StackFrame.TheVariants as stack_frame;
ghost use Rattle.jvms_machine.specs.Calls.{frame_of_call};
ghost use Rattle.jvms_machine.specs.Actions.{top_operands, after_return};
ghost use Rattle.jvms_machine.specs.Turn.{HasRoomFor};
ghost use Rattle.machine_thread.specs.Tops.{HasNext, caller_without_operands};

use super::Thread;
use crate::stack::{give_below, keep, return_to_stack};
use frame_turns::frames::Frame;
use jvms_machine::state::StackFrame;
use jvms_machine::value::Value;
use jvms_program::number::MethodNumber;
use jvms_program::program::Body;
use std::alloc::{AllocError, Global};

/// The number of frames of returned calls that a thread keeps, so that later calls reuse their memory.
const MOST_SPARE: usize = 32;

impl<'p> Thread<'p> {
    /// Pushes the frame of a call. If there is no memory for it, nothing changes.
    #[inline(always)]
    pub fn push_call(&mut self, frame: Frame<'p>) -> Result<(), AllocError>
        ensures ok { OnOk result (self.new
            ≡ record self.old { frames = stack_frame.Call frame.entry ∷ self.old.frames }) }
        ensures err { OnErr result (self.new ≡ self.old) }
    {
        self.push(StackFrame::Call(frame))
    }

    /// Returns the arguments of a call that takes `takes` operands of the top call, the first argument first.
    #[inline(always)]
    pub fn arguments(&self, takes: usize) -> &[Value]
        requires { takes ≤ length (top_operands self.now.frames) }
        ensures { result.now ≡ reverse (take takes (top_operands self.now.frames)) }
    {
        match self.frame(0) {
            Some(StackFrame::Call(frame)) => frame.arguments(takes),
            Some(StackFrame::Initialisation { .. }) | None => &[],
        }
    }

    /// Reserves memory for spare frames, once. Does nothing if there is no memory.
    #[inline(never)]
    fn make_spare_room(&mut self)
        ensures { self.new ≡ self.old }
    {
        if self.spare.capacity() == 0 {
            let _room = self.spare.reserve(MOST_SPARE);
        }
    }

    /// Pushes the frame of a call that takes `takes` operands of the top call, in new memory. If there is no memory,
    /// nothing changes.
    #[inline(never)]
    fn call_anew(
        &mut self,
        alloc: Global,
        method: MethodNumber,
        body: &'p Body,
        monitor: Option<u32>,
        takes: usize,
    ) -> Result<(), AllocError>
        requires there { takes ≤ length (top_operands self.old.frames) }
        requires room { takes ≤ body.now.max_locals }
        ensures ok { OnOk result (self.new ≡ record self.old {
          frames = stack_frame.Call (frame_of_call method body.now monitor
              (reverse (take takes (top_operands self.old.frames)))) ∷ self.old.frames;
        }) }
        ensures err { OnErr result (self.new ≡ self.old) }
    {
        self.make_spare_room();
        let frame = Frame::new(alloc, method, body, monitor, self.arguments(takes))?;
        self.push_call(frame)
    }

    /// Pushes the frame of a call that takes `takes` operands of the top call, with the object whose monitor it has
    /// entered. Reuses the memory of a spare frame, if there is one. If there is no memory, nothing changes.
    #[inline(always)]
    pub fn call(
        &mut self,
        alloc: Global,
        method: MethodNumber,
        body: &'p Body,
        monitor: Option<u32>,
        takes: usize,
    ) -> Result<(), AllocError>
        requires there { takes ≤ length (top_operands self.old.frames) }
        requires room { takes ≤ body.now.max_locals }
        ensures ok { OnOk result (self.new ≡ record self.old {
          frames = stack_frame.Call (frame_of_call method body.now monitor
              (reverse (take takes (top_operands self.old.frames)))) ∷ self.old.frames;
        }) }
        ensures err { OnErr result (self.new ≡ self.old) }
    {
        match self.spare.pop() {
            None => self.call_anew(alloc, method, body, monitor, takes),
            Some(spare) => {
                let frame = spare.begun_again(method, body, monitor, self.arguments(takes))?;
                self.push_call(frame)
            }
        }
    }

    /// Removes the topmost `takes` operands of the frame below the top, which pass to the call on top.
    #[inline(always)]
    pub fn give(&mut self, takes: usize)
        requires { takes ≤ length (top_operands (drop 1 self.old.frames)) }
        ensures { self.new
            ≡ record self.old { frames = caller_without_operands takes self.old.frames } }
    {
        give_below(&mut self.frames, takes);
    }

    /// Returns from the top call to the frame below, with its result.
    #[inline(always)]
    pub fn return_below(&mut self, value: Option<Value>)
        requires room { HasRoomFor value (drop 1 self.old.frames) }
        requires next { HasNext (drop 1 self.old.frames) }
        ensures { self.new ≡ after_return value self.old }
    {
        let top = self.frames.pop();
        keep(&mut self.spare, top);
        return_to_stack(&mut self.frames, value);
    }
}
