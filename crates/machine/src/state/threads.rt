//! The threads of a machine and their frames (JVMS 2.5).

ghost use Rattle.std.specs.Prelude.{◌≡◌, length, option_copied};
ghost use Rattle.std.specs.Option.{option_and_then, option_map};
ghost use Rattle.machine.specs.Views.{thread_at, frame_at, frame_of, uncaught};

use crate::machine::Machine;
use frames::Frame;
use invoke::machine_thread::Thread;
use jvms_machine::machine::ThreadId;
use jvms_machine::state::{StackFrame, Wait};
use jvms_program::number::ClassNumber;

/// A frame on a thread's stack.
#[derive(Clone, Copy)]
pub enum FrameView<'m, 'p> {
    /// A call: its method, the pc, the local variables, the operands, and the object whose monitor it has entered.
    /// `Frame::operand` counts from 0 at the top.
    Call(&'m Frame<'p>),
    /// The initialisation of a class, and whether its `<clinit>` was called.
    Initialisation { class: ClassNumber, called: bool },
}

/// Returns the view of a frame.
fn view<'m, 'p>(frame: &'m StackFrame<Frame<'p>>) -> FrameView<'m, 'p>
    ensures { frame_of result ≡ frame.now }
{
    match frame {
        StackFrame::Call(frame) => FrameView::Call(frame),
        StackFrame::Initialisation { class, called } => FrameView::Initialisation {
            class: *class,
            called: *called,
        },
    }
}

impl<'p> Machine<'p> {
    /// Returns the thread of a number, if it was started.
    fn thread(&self, t: ThreadId) -> Option<&Thread<'p>>
        ensures { option_copied result ≡ thread_at self.now t }
    {
        self.parts.threads.as_slice().get(t as usize)
    }

    /// Returns the reference of a thread's Thread object. Thread 0 has none.
    pub fn thread_object(&self, t: ThreadId) -> Option<u32>
        ensures { result ≡ option_and_then (λ x. x.object) (thread_at self.now t) }
    {
        let thread = self.thread(t)?;
        thread.object()
    }

    /// Decides whether a thread has made its first call: of the entry's method, or of its Thread object's `run`.
    /// Returns `None` for a thread that was never started.
    pub fn first_call_made(&self, t: ThreadId) -> Option<bool>
        ensures { result ≡ option_map (λ x. x.first_call_made) (thread_at self.now t) }
    {
        let thread = self.thread(t)?;
        Some(thread.first_call_made())
    }

    /// Decides whether a thread has ended. Returns `None` for a thread that was never started.
    pub fn has_ended(&self, t: ThreadId) -> Option<bool>
        ensures { result ≡ option_map (λ x. x.ended) (thread_at self.now t) }
    {
        let thread = self.thread(t)?;
        Some(thread.has_ended())
    }

    /// Returns the reference of a thread's pending exception. In a thread that has ended, it is the one that ended it.
    pub fn pending(&self, t: ThreadId) -> Option<u32>
        ensures { result ≡ option_and_then (λ x. x.pending) (thread_at self.now t) }
    {
        let thread = self.thread(t)?;
        thread.pending()
    }

    /// Returns what a thread waits for, from its call of `wait` until it has retaken the monitor, notified or not: the object,
    /// and the entry count that the monitor is given back (JLS 17.2).
    pub fn wait(&self, t: ThreadId) -> Option<Wait>
        ensures { result ≡ option_and_then (λ x. x.waits) (thread_at self.now t) }
    {
        let thread = self.thread(t)?;
        thread.waits()
    }

    /// Returns the number of a thread's frames, those of initialisations included (JVMS 2.5.2). Returns `None` for a
    /// thread that was never started.
    pub fn frame_count(&self, t: ThreadId) -> Option<usize>
        ensures { result ≡ option_map (λ x. length x.frames) (thread_at self.now t) }
    {
        let thread = self.thread(t)?;
        Some(thread.height())
    }

    /// Returns the frame of a thread at a depth, where the top has depth 0 (JVMS 2.6).
    pub fn frame(&self, t: ThreadId, depth: usize) -> Option<FrameView<'_, 'p>>
        ensures { option_map frame_of result ≡ frame_at self.now t depth }
    {
        let thread = self.thread(t)?;
        let frame = thread.frame(depth)?;
        Some(view(frame))
    }

    /// Returns the class of the exception with which a thread ended, if no handler caught it (JVMS 2.10).
    pub fn uncaught(&self, t: ThreadId) -> Option<&[u16]>
        ensures { option_map (λ c. c.now) result ≡ uncaught self.now t }
    {
        let thread = self.thread(t)?;
        if !thread.has_ended() {
            return None;
        }
        self.parts.heap.class_of(thread.pending()?)
    }
}
