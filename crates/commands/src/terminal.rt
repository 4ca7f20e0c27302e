//! What a person at a terminal sees on standard error in a session of the debugger.

use command_line::shown_line;
use debugger::Session;
use debugger_script::Prompt;
use inputs::Input;
use judge::classes_of;
use jvms_file::class_file::ClassFile;
use machine::FrameView;
use machine_text::put_place;
use source_lines::SourceFiles;
use std::alloc::{AllocError, Global};
use trace::ByteOut;

/// The standard devices that are a terminal, at which a person sits.
#[derive(Clone, Copy, Debug, PartialEq, Eq)]
pub struct Terminal {
    /// `true` if standard input is a terminal.
    pub input: bool,
    /// `true` if standard output is a terminal.
    pub output: bool,
    /// `true` if standard error is a terminal.
    pub errors: bool,
}

impl Terminal {
    /// The case that no standard device is a terminal.
    pub const NONE: Terminal = Terminal {
        input: false,
        output: false,
        errors: false,
    };

    /// Returns whether a person types the commands of a session, and sees prompts.
    pub(crate) fn has_prompts(self) -> bool {
        self.input && self.errors
    }
}

/// A prompt. Before each read it shows the position, and where the thread of the next turn is. After a fault it shows a
/// hint. Text that can't be shown is omitted, and changes nothing else.
#[derive(Drop)]
pub(crate) struct TerminalPrompt<'e, E: ByteOut> {
    alloc: Global,
    errors: &'e mut E,
    /// The schedule of the choices, as spelled in the words.
    schedule: &'e str,
    /// The class files of the program.
    files: &'e [ClassFile],
    is_greeted: bool,
}

impl<'e, E: ByteOut> TerminalPrompt<'e, E> {
    /// Returns a prompt that writes to this writer.
    pub(crate) fn new(
        alloc: Global,
        errors: &'e mut E,
        schedule: &'e str,
        files: &'e [ClassFile],
    ) -> Self {
        TerminalPrompt {
            alloc,
            errors,
            schedule,
            files,
            is_greeted: false,
        }
    }

    /// Shows the prompt of a session. The first time it shows the session's first line before it.
    fn ask_in(&mut self, session: &Session<'_>) {
        let turns = session.choices().len();
        if !self.is_greeted {
            self.is_greeted = true;
            self.show(greeting(self.alloc, self.schedule, turns));
        }
        self.show(next_line(self.alloc, session, self.files));
        self.show(prompt_at(self.alloc, session.position(), turns));
    }

    /// Shows a text, unless memory ran out for it.
    fn show(&mut self, text: Result<String, AllocError>) {
        if let Ok(text) = text {
            let _ = self.errors.write_all(text.as_bytes());
        }
    }
}

/// Returns the classes of inputs, which prompts use for source lines. Returns none if an input is no class, because the
/// session is then refused.
pub(crate) fn source_files(alloc: Global, inputs: &[Input]) -> Vec<ClassFile> {
    match classes_of(alloc, inputs) {
        Ok(files) => files,
        Err(_) => Vec::new(alloc),
    }
}

/// Returns the first line of a session.
fn greeting(alloc: Global, schedule: &str, turns: usize) -> Result<String, AllocError> {
    let schedule = shown_line(alloc, schedule)?;
    format!(in alloc;
        "{turns} turns by schedule {schedule}. jvmx help debug lists the commands. Ctrl-D ends the session.\n"
    )
}

/// Returns the line of the next turn's thread: where it is in the program and in its source. The text is empty if there
/// is no next turn, or if the thread is in no call.
fn next_line(
    alloc: Global,
    session: &Session<'_>,
    files: &[ClassFile],
) -> Result<String, AllocError> {
    let mut line = String::new(alloc);
    let Some(thread) = session.choices().get(session.position()) else {
        return Ok(line);
    };
    let machine = session.machine();
    let program = machine.program();
    if let Some(FrameView::Call(call)) = machine.frame(*thread, 0) {
        let sources = SourceFiles::new(program.classes(), files);
        let thread = *thread;
        let head = format!(in alloc; "next: thread {thread} at ")?;
        line.push_str(head.as_str())?;
        put_place(&mut line, program, call.method(), call.place())?;
        source_lines::put_place(&mut line, &sources, call.method(), call.place())?;
        line.push_str("\n")?;
    }
    Ok(line)
}

/// Returns the prompt at a position.
fn prompt_at(alloc: Global, position: usize, turns: usize) -> Result<String, AllocError> {
    format!(in alloc; "({position} of {turns}) ")
}

/// Returns a hint for the answer of a fault.
fn hint_of(answer: &str) -> Option<&'static str> {
    if answer.starts_with("fault B01") {
        Some("jvmx help debug lists the commands. One space parts their words.\n")
    } else if answer.starts_with("fault B02") {
        Some("A number has decimal digits and is at most 4294967295.\n")
    } else if answer.starts_with("fault B03") {
        Some("threads lists the threads.\n")
    } else if answer.starts_with("fault B04") {
        Some("object takes the N of a reference R:N. frames T shows some.\n")
    } else if answer.starts_with("fault B05") {
        Some("break answers with the number of its breakpoint.\n")
    } else if answer.starts_with("fault B06") {
        Some(
            "A class is written as in --entry, and a place as its method and an instruction:\nLostUpdate.inc.()V 3. Instructions are counted from 0, in the order of jvmx list.\n",
        )
    } else {
        None
    }
}

impl<E: ByteOut> Prompt for TerminalPrompt<'_, E> {
    fn ask(&mut self, session: &Session<'_>) {
        self.ask_in(session);
    }

    fn explain(&mut self, answer: &str) {
        if let Some(hint) = hint_of(answer) {
            let _ = self.errors.write_all(hint.as_bytes());
        }
    }
}
