//! The steps of threads in a trace, and their text.

use std::alloc::{AllocError, Global};

/// A variable that is read and written.
#[derive(Clone, Copy, PartialEq, Eq)]
pub enum Variable {
    StaticX,
    StaticY,
    InstanceX,
}

/// A method that is entered and left.
#[derive(Clone, Copy)]
pub enum Method {
    First,
    Second,
}

/// An action of a thread: an event, or an entry or an exit, which are no events.
#[derive(Clone, Copy)]
pub enum Action {
    Read(Variable),
    Write(Variable),
    Acquire(u32),
    Release(u32),
    Fork(u32),
    Join(u32),
    Enter(Method),
    Exit(Method),
}

/// A step of a thread.
#[derive(Clone, Copy)]
pub struct Step {
    pub thread: u32,
    pub action: Action,
}

/// A method that a thread has open, with the place of its entry among the steps.
#[derive(Clone, Copy)]
pub struct Open {
    pub place: usize,
    pub method: Method,
}

impl Variable {
    fn text(self) -> &'static str {
        match self {
            Variable::StaticX => "C.x.I",
            Variable::StaticY => "C.y.I",
            Variable::InstanceX => "7.C.x.I",
        }
    }
}

impl Method {
    fn text(self) -> &'static str {
        match self {
            Method::First => "C.m.()V",
            Method::Second => "C.n.()V",
        }
    }
}

impl Action {
    /// Returns the first word of the action's line.
    fn word(self) -> &'static str {
        match self {
            Action::Read(_) => "rd",
            Action::Write(_) => "wr",
            Action::Acquire(_) => "acq",
            Action::Release(_) => "rel",
            Action::Fork(_) => "fork",
            Action::Join(_) => "join",
            Action::Enter(_) => "enter",
            Action::Exit(_) => "exit",
        }
    }

    pub fn is_event(self) -> bool {
        !matches!(self, Action::Enter(_) | Action::Exit(_))
    }

    pub fn is_write(self) -> bool {
        matches!(self, Action::Write(_))
    }

    pub fn is_write_of(self, variable: Variable) -> bool {
        match self {
            Action::Write(other) => other == variable,
            _ => false,
        }
    }

    /// Returns the variable that the action reads or writes.
    pub fn variable(self) -> Option<Variable> {
        match self {
            Action::Read(variable) | Action::Write(variable) => Some(variable),
            _ => None,
        }
    }

    /// Returns the object whose monitor the action enters or leaves.
    pub fn monitor(self) -> Option<u32> {
        match self {
            Action::Acquire(reference) | Action::Release(reference) => Some(reference),
            _ => None,
        }
    }

    /// Decides whether the action starts a thread, or waited for it.
    pub fn touches(self, thread: u32) -> bool {
        match self {
            Action::Fork(other) | Action::Join(other) => other == thread,
            _ => false,
        }
    }
}

/// Appends the line of a step.
fn put_line(text: &mut String, step: Step) -> Result<(), AllocError> {
    let word = step.action.word();
    let thread = step.thread;
    match step.action {
        Action::Read(variable) | Action::Write(variable) => {
            writeln!(text, "{word} {thread} {}", variable.text())
        }
        Action::Enter(method) | Action::Exit(method) => {
            writeln!(text, "{word} {thread} {}", method.text())
        }
        Action::Acquire(number)
        | Action::Release(number)
        | Action::Fork(number)
        | Action::Join(number) => writeln!(text, "{word} {thread} {number}"),
    }
}

/// Returns the text of a trace of these steps.
pub fn text_of(alloc: Global, steps: &[Step]) -> Result<String, AllocError> {
    let mut text = String::new(alloc);
    for step in steps {
        put_line(&mut text, *step)?;
    }
    Ok(text)
}

/// Returns the methods that a thread has open after the first `count` steps, the outermost first.
pub fn open_behind(
    alloc: Global,
    steps: &[Step],
    count: usize,
    thread: u32,
) -> Result<Vec<Open>, AllocError> {
    let mut open = Vec::new(alloc);
    for (place, step) in steps.iter().enumerate() {
        if place < count && step.thread == thread {
            match step.action {
                Action::Enter(method) => open.push(Open { place, method })?,
                Action::Exit(_) => {
                    let _ = open.pop();
                }
                _ => {}
            }
        }
    }
    Ok(open)
}
