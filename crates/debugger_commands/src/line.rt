//! Reads lines of one, two and three words.

ghost use Rattle.std.specs.Prelude.{◌≡◌, [], ◌∷◌, is_some};
ghost use Rattle.jvms_file.specs.Names.{same_text};
ghost use Rattle.debugger_commands.specs.Commands.{command_of, with_number};
ghost use Rattle.debugger_commands.specs.Readings.{AreRead, IsBreakRead, words_of};

use crate::command::{Command, Place};
use crate::fault::DebugFault;
use crate::word::number;
use escapes::{NameSort, method_of, name_of};
use std::alloc::Global;

const SPACE: char = ' ';

/// Decides whether a word is this name.
fn is(word: &str, name: &[u8]) -> bool
    ensures { result ≡ same_text word.now name.now }
{
    word.as_bytes() == name
}

/// Returns the command that one word spells, if it spells one.
fn named(name: &str) -> Option<Command>
    ensures { result ≡ command_of name.now }
{
    if is(name, b"continue") {
        Some(Command::Continue)
    } else if is(name, b"rcontinue") {
        Some(Command::ReverseContinue)
    } else if is(name, b"threads") {
        Some(Command::Threads)
    } else if is(name, b"trace") {
        Some(Command::Trace)
    } else if is(name, b"output") {
        Some(Command::Output)
    } else {
        None
    }
}

/// Returns the command that a name and a number spell, if they spell one.
fn with_number(name: &str, number: u32) -> Option<Command>
    ensures { result ≡ with_number name.now number }
{
    if is(name, b"step") {
        Some(Command::Step(number))
    } else if is(name, b"back") {
        Some(Command::Back(number))
    } else if is(name, b"goto") {
        Some(Command::Goto(number))
    } else if is(name, b"pick") {
        Some(Command::Pick(number))
    } else if is(name, b"delete") {
        Some(Command::Delete(number))
    } else if is(name, b"frames") {
        Some(Command::Frames(number))
    } else if is(name, b"object") {
        Some(Command::Object(number))
    } else {
        None
    }
}

/// Decides whether the command of this name has a number.
fn has_number(name: &str) -> bool
    ensures { result ≡ is_some (with_number name.now 0) }
{
    with_number(name, 0).is_some()
}

/// Returns the command that one word spells.
pub(crate) fn alone(name: &str) -> Result<Command, DebugFault>
    ensures { AreRead (name.now ∷ []) result }
{
    named(name).ok_or(DebugFault::UnknownCommand)
}

/// Returns the command that a name and one word spell.
pub(crate) fn with_one_word(alloc: Global, name: &str, word: &str) -> Result<Command, DebugFault>
    ensures { AreRead (name.now ∷ word.now ∷ []) result }
{
    if is(name, b"class") {
        let class = name_of(alloc, NameSort::Class, word.as_bytes())?;
        return Ok(Command::Class(class));
    }
    if !has_number(name) {
        return Err(DebugFault::UnknownCommand);
    }
    let number = number(word).ok_or(DebugFault::Number)?;
    with_number(name, number).ok_or(DebugFault::UnknownCommand)
}

/// Reads `break` at a method and an instruction.
fn break_at(alloc: Global, method: &str, instruction: &str) -> Result<Command, DebugFault>
    ensures { IsBreakRead method.now instruction.now result }
{
    let instruction = number(instruction).ok_or(DebugFault::Number)?;
    let method = method_of(alloc, method.as_bytes())?;
    Ok(Command::Break(Place {
        method,
        instruction,
    }))
}

/// Returns the command that a name, a word and the rest of a line spell.
pub(crate) fn with_two_words(
    alloc: Global,
    name: &str,
    word: &str,
    rest: &str,
) -> Result<Command, DebugFault>
    ensures { AreRead (name.now ∷ word.now ∷ words_of rest.now) result }
{
    if is(name, b"break") && rest.split_once(SPACE).is_none() {
        break_at(alloc, word, rest)
    } else {
        Err(DebugFault::UnknownCommand)
    }
}
