//! The commands of the debugger.

ghost use Rattle.debugger_commands.specs.Readings.{Reads};

use crate::fault::DebugFault;
use crate::line::{alone, with_one_word, with_two_words};
use jvms_machine::machine::ThreadId;
use jvms_program::key::MethodKey;
use shared_data::shared::Text;
use std::alloc::Global;

const SPACE: char = ' ';

/// A place in a method's code. The method is `None` if it isn't spelled as `C.m.D`.
#[derive(Drop)]
pub struct Place {
    pub method: Option<MethodKey>,
    /// The number of the instruction, from 0.
    pub instruction: u32,
}

/// A command of the debugger. A position is a number of choices, from 0 to their count. A position is a hit if the next
/// choice's thread has nothing pending and its top frame is at a breakpoint.
#[derive(Drop)]
pub enum Command {
    /// `step N`: moves forward by N choices, at most to the end.
    Step(u32),
    /// `back N`: moves back by N choices, at most to 0.
    Back(u32),
    /// `goto N`: moves to position N, at most to the end.
    Goto(u32),
    /// `continue`: moves to the next hit, or to the end if there is none.
    Continue,
    /// `rcontinue`: moves to the nearest hit before the position, or to 0 if there is none.
    ReverseContinue,
    /// `pick T`: truncates the choices at the position, appends this thread, and moves after it.
    Pick(ThreadId),
    /// `break C.m.D I`: adds a breakpoint.
    Break(Place),
    /// `delete K`: removes the breakpoint with this number.
    Delete(u32),
    /// `threads`: shows each thread.
    Threads,
    /// `frames T`: shows the frames of a thread.
    Frames(ThreadId),
    /// `object R`: shows the object with this reference.
    Object(u32),
    /// `class C`: shows a class. It is `None` if the word is no class's name.
    Class(Option<Text>),
    /// `trace`: shows the trace so far.
    Trace,
    /// `output`: shows the output so far.
    Output,
}

impl Command {
    /// Reads the command that a line spells. Single spaces separate its words.
    ///
    /// # Errors
    ///
    /// B01 if the line is empty, isn't UTF-8, begins with no command's word, or has too few or too many words. Else B02
    /// if the word at a number's place isn't decimal digits of at most 4,294,967,295. B07 if memory ran out for the
    /// names of `break` and `class`. There are no others.
    pub fn parse(alloc: Global, line: &[u8]) -> Result<Command, DebugFault>
        ensures { Reads line.now result }
    {
        let Ok(text) = std::str::from_utf8(line) else {
            return Err(DebugFault::UnknownCommand);
        };
        let Some((name, words)) = text.split_once(SPACE) else {
            return alone(text);
        };
        match words.split_once(SPACE) {
            None => with_one_word(alloc, name, words),
            Some((first, second)) => with_two_words(alloc, name, first, second),
        }
    }
}
