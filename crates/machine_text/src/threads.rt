//! Threads, as the debugger writes them.

ghost use Rattle.std.specs.Prelude.{◌≡◌, ◌++◌, IfOk, OnOk, length};
ghost use Rattle.std.specs.Option.{option_and_then};
ghost use Rattle.std.specs.String.{string_bytes};
ghost use Rattle.machine.specs.Views.{frame_at, thread_at};
ghost use Rattle.machine_text.specs.Parts.{line_of_thread};
ghost use Rattle.machine_text.specs.Threads.{pending_text, top_text};
ghost use Rattle.machine_text.specs.Threads.{threads_text};

use crate::outcome::put_outcome;
use crate::thread_frames::put_frame;
use escapes::put_counted;
use jvms_machine::machine::ThreadId;
use machine::Machine;
use std::alloc::{AllocError, Global};

/// Returns the number of threads that were ever started.
pub fn thread_count(machine: &Machine) -> ThreadId
    ensures { result ≡ length machine.now.state.threads }
{
    // The number of threads is within the limit, which is a 32-bit number.
    machine.state_is_sound();
    let _limits = machine.limits();
    machine.thread_count() as ThreadId
}

/// Appends the position of a thread's top frame. Appends nothing if the thread has no frame.
fn put_top(out: &mut String, machine: &Machine, t: ThreadId) -> Result<(), AllocError>
    ensures { OnOk result (string_bytes out.new ≡ string_bytes out.old
        ++ top_text machine.now.program (frame_at machine.now t 0)) }
{
    match machine.frame(t, 0) {
        Some(frame) => {
            out.push_str(" at ")?;
            put_frame(out, machine.program(), &frame)
        }
        None => Ok(()),
    }
}

/// Appends the exception that is pending in a thread, if there is one.
fn put_pending(out: &mut String, machine: &Machine, t: ThreadId) -> Result<(), AllocError>
    ensures { OnOk result (string_bytes out.new ≡ string_bytes out.old
        ++ pending_text (option_and_then (λ x. x.pending) (thread_at machine.now t))) }
{
    match machine.pending(t) {
        Some(reference) => put_counted(out, " pending ", u64::from(reference)),
        None => Ok(()),
    }
}

/// Appends the line of a thread: the outcome of its next turn, its top frame and its pending
/// exception.
fn put_thread(out: &mut String, machine: &Machine, t: ThreadId) -> Result<(), AllocError>
    ensures { OnOk result (string_bytes out.new ≡ string_bytes out.old
        ++ line_of_thread machine.now t) }
{
    put_counted(out, "thread ", u64::from(t))?;
    out.push_str(" ")?;
    put_outcome(out, machine.program(), machine.peek(t))?;
    put_top(out, machine, t)?;
    put_pending(out, machine, t)?;
    out.push_str("\n")
}

/// Returns the lines of all threads.
pub fn threads_text(alloc: Global, machine: &Machine) -> Result<String, AllocError>
    ensures { IfOk result (λ s. string_bytes s ≡ threads_text machine.now) }
{
    let mut text = String::new(alloc);
    for t in 0..thread_count(machine) {
        put_thread(&mut text, machine, t)?;
    }
    Ok(text)
}
