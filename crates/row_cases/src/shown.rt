//! Answers the queries of a case about the machine after its turns. A line is a query, followed by its answer.
//!
//! - `status S`. The counts `objects N`, `elements N`, `threads N`. `result V`, or `none`. `output "TEXT"`.
//! - `last OUTCOME`: that of the last turn. `peek T OUTCOME`: that of a thread's next turn.
//! - `pending T R C`: the pending exception, or `none`. `uncaught T C`: the class of the exception that ended the
//!   thread, or `none`.
//! - `at T C.m.D @P`, `at T init C` or `at T nowhere`. `frames T N`. `locals T V ..`, `stack T V ..` of the top frame.
//! - `ref R text "TEXT"`, `ref R class C`, `ref R C C.x=V ..`, `ref R [E V ..`: the object of a reference.
//! - `monitor R T xN`, or `free`. `wait T R xN`: the object that a thread waits for, and the entry count that it takes back,
//!   or `none`.
//! - `class C HOW C.x=V ..`: `new`, `init by T`, `done` or `erroneous`, and its static fields. `gone` if there is no
//!   such class.

use crate::case_run::CaseRun;
use crate::{objects, texts, threads};
use machine::Machine;
use std::alloc::{AllocError, Global};

/// Returns the number of decimal digits, or 0 for any other word.
fn number(word: &str) -> u32 {
    word.parse().unwrap_or(0)
}

/// Returns the value that the entry's method returned.
fn result(alloc: Global, machine: &Machine<'_>) -> Result<String, AllocError> {
    match machine.result() {
        Some(value) => texts::value(alloc, value),
        None => String::from_str(alloc, "none"),
    }
}

/// Returns the outcome of the last turn.
fn last(alloc: Global, machine: &Machine<'_>, case_run: &CaseRun) -> Result<String, AllocError> {
    match case_run.last() {
        Some(outcome) => texts::outcome(alloc, machine, outcome),
        None => String::from_str(alloc, "none"),
    }
}

/// Returns the answer to a query about the machine, or `None` if the word is no such query.
fn of_machine(
    alloc: Global,
    machine: &Machine<'_>,
    case_run: &CaseRun,
    asked: &str,
) -> Result<Option<String>, AllocError> {
    let answer = match asked {
        "status" => String::from_str(alloc, texts::status(machine.status()))?,
        "objects" => format!(in alloc; "{}", machine.object_count())?,
        "elements" => format!(in alloc; "{}", machine.element_count())?,
        "threads" => format!(in alloc; "{}", machine.thread_count())?,
        "result" => result(alloc, machine)?,
        "output" => texts::output(alloc, machine.output())?,
        "last" => last(alloc, machine, case_run)?,
        _ => return Ok(None),
    };
    Ok(Some(answer))
}

/// Returns the answer to a query about a thread, a reference or a class.
fn of_part(
    alloc: Global,
    machine: &Machine<'_>,
    asked: &str,
    part: &str,
) -> Result<String, AllocError> {
    match asked {
        "peek" => texts::outcome(alloc, machine, machine.peek(number(part))),
        "pending" => threads::pending(alloc, machine, number(part)),
        "uncaught" => threads::uncaught(alloc, machine, number(part)),
        "at" => threads::place(alloc, machine, number(part)),
        "frames" => threads::frames(alloc, machine, number(part)),
        "locals" => threads::locals(alloc, machine, number(part)),
        "stack" => threads::operands(alloc, machine, number(part)),
        "ref" => objects::object(alloc, machine, number(part)),
        "wait" => threads::wait(alloc, machine, number(part)),
        "monitor" => objects::monitor(alloc, machine, number(part)),
        "class" => objects::class(alloc, machine, part),
        _ => String::from_str(alloc, "isn't known"),
    }
}

/// Returns the line that the machine gives for a wanted one.
pub fn shown(
    alloc: Global,
    machine: &Machine<'_>,
    case_run: &CaseRun,
    want: &str,
) -> Result<String, AllocError> {
    let mut words = want.split_whitespace();
    let asked = words.next().unwrap_or("");
    if let Some(answer) = of_machine(alloc, machine, case_run, asked)? {
        return format!(in alloc; "{asked} {}", answer.as_str());
    }
    let part = words.next().unwrap_or("");
    let answer = of_part(alloc, machine, asked, part)?;
    let line = format!(in alloc; "{asked} {part} {}", answer.as_str())?;
    String::from_str(alloc, line.as_str().trim_end())
}
