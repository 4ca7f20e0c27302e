//! Shows threads.

use crate::texts;
use frames::Frame;
use jvms_machine::value::Value;
use machine::{FrameView, Machine, ThreadId};
use std::alloc::{AllocError, Global};

/// Returns the reference and the class of an exception.
fn exception(alloc: Global, machine: &Machine<'_>, reference: u32) -> Result<String, AllocError> {
    let class = texts::name(alloc, machine.class_of(reference).unwrap_or(&[]))?;
    format!(in alloc; "{reference} {}", class.as_str())
}

/// Returns the pending exception of a thread, or `none`.
pub fn pending(alloc: Global, machine: &Machine<'_>, t: ThreadId) -> Result<String, AllocError> {
    match machine.pending(t) {
        Some(reference) => exception(alloc, machine, reference),
        None => String::from_str(alloc, "none"),
    }
}

/// Returns the class of the exception that ended a thread, or `none`.
pub fn uncaught(alloc: Global, machine: &Machine<'_>, t: ThreadId) -> Result<String, AllocError> {
    match machine.uncaught(t) {
        Some(class) => texts::name(alloc, class),
        None => String::from_str(alloc, "none"),
    }
}

/// Returns the object that a thread waits for and the entry count that it takes back, or `none`.
pub fn wait(alloc: Global, machine: &Machine<'_>, t: ThreadId) -> Result<String, AllocError> {
    match machine.wait(t) {
        Some(wait) => format!(in alloc; "{} x{}", wait.reference, wait.count),
        None => String::from_str(alloc, "none"),
    }
}

/// Returns a call: its method, and the place of its next instruction.
fn call(alloc: Global, machine: &Machine<'_>, frame: &Frame<'_>) -> Result<String, AllocError> {
    let number = frame.method();
    let class = texts::class_name(alloc, machine, number.class)?;
    let Some(method) = machine.program().method(number) else {
        return Ok(class);
    };
    let name = texts::name(alloc, method.name.as_slice())?;
    let descriptor = texts::name(alloc, method.descriptor.as_slice())?;
    let place = frame.place();
    format!(in alloc;
        "{}.{}.{} @{place}",
        class.as_str(),
        name.as_str(),
        descriptor.as_str()
    )
}

/// Returns the place of a thread: a call, an initialisation, or `nowhere`.
pub fn place(alloc: Global, machine: &Machine<'_>, t: ThreadId) -> Result<String, AllocError> {
    match machine.frame(t, 0) {
        None => String::from_str(alloc, "nowhere"),
        Some(FrameView::Call(frame)) => call(alloc, machine, frame),
        Some(FrameView::Initialisation { class, .. }) => {
            let class = texts::class_name(alloc, machine, class)?;
            format!(in alloc; "init {}", class.as_str())
        }
    }
}

/// Returns the number of a thread's frames.
pub fn frames(alloc: Global, machine: &Machine<'_>, t: ThreadId) -> Result<String, AllocError> {
    match machine.frame_count(t) {
        Some(count) => format!(in alloc; "{count}"),
        None => String::from_str(alloc, "none"),
    }
}

/// Returns the values in order, separated by spaces.
fn values(alloc: Global, values: &[Value]) -> Result<String, AllocError> {
    let mut line = String::new(alloc);
    for value in values {
        if !line.is_empty() {
            line.push(' ')?;
        }
        let value = texts::value(alloc, *value)?;
        line.push_str(value.as_str())?;
    }
    Ok(line)
}

/// Returns the local variables of a thread's top frame.
pub fn locals(alloc: Global, machine: &Machine<'_>, t: ThreadId) -> Result<String, AllocError> {
    match machine.frame(t, 0) {
        Some(FrameView::Call(frame)) => values(alloc, frame.locals()),
        _ => String::from_str(alloc, "none"),
    }
}

/// Returns the operands of a thread's top frame, the bottom first.
pub fn operands(alloc: Global, machine: &Machine<'_>, t: ThreadId) -> Result<String, AllocError> {
    match machine.frame(t, 0) {
        Some(FrameView::Call(frame)) => {
            let height = usize::from(frame.height());
            values(alloc, frame.arguments(height))
        }
        _ => String::from_str(alloc, "none"),
    }
}
