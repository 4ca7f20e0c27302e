//! Reads the text of a table.

ghost use Rattle.std.specs.Prelude.{◌≡◌, IfOk};
ghost use Rattle.campaign_text.specs.TableTexts.{table_text};

use crate::fault::TableFault;
use crate::part::Part;
use crate::table::table_text;
use campaign::{Atomicity, JobResult, Table};
use jvms_machine::machine::Status;
use std::alloc::{AllocError, Global};

/// A job with its number.
#[derive(Clone, Copy)]
struct Job {
    number: u64,
    result: JobResult,
}

/// Returns the number that a word of a line spells.
fn number_at(words: &[&str], place: usize) -> Option<u64> {
    words.get(place)?.parse::<u64>().ok()
}

/// Returns the status that a word of a line names.
fn status_at(words: &[&str], place: usize) -> Option<Status> {
    match *words.get(place)? {
        "Finished" => Some(Status::Finished),
        "Running" => Some(Status::Running),
        "Stalled" => Some(Status::Stalled),
        "Deadlocked" => Some(Status::Deadlocked),
        _ => None,
    }
}

/// Returns the job of a line's words, or `None` if one is missing. Doesn't compare the words that are the same in each
/// line.
fn job_of(words: &[&str]) -> Option<Job> {
    let is_atomic = *words.get(2)? == "atomic";
    let status = if is_atomic { 4 } else { 6 };
    let atomicity = if is_atomic {
        Atomicity::Atomic
    } else {
        let first_at = number_at(words, 4)?;
        Atomicity::Cycle { first_at }
    };
    Some(Job {
        number: number_at(words, 1)?,
        result: JobResult {
            atomicity,
            status: status_at(words, status)?,
            turns: number_at(words, status + 2)?,
            events: number_at(words, status + 4)?,
        },
    })
}

/// Returns the words of a line.
fn words_of(alloc: Global, line: &str) -> Result<Vec<&str>, AllocError> {
    let mut words = Vec::new(alloc);
    for word in line.split(' ') {
        words.push(word)?;
    }
    Ok(words)
}

/// Returns the jobs of the lines before the first line that is no job's. Lines may be misspelled.
fn part_of(alloc: Global, text: &str) -> Result<Part, AllocError> {
    let mut first = 0;
    let mut results = Vec::new(alloc);
    for line in text.split('\n') {
        let words = words_of(alloc, line)?;
        let Some(job) = job_of(words.as_slice()) else {
            break;
        };
        if results.is_empty() {
            first = job.number;
        }
        results.push(job.result)?;
    }
    let table = Table { results };
    Ok(Part { first, table })
}

/// Returns the first line, from 1, in which two texts differ.
fn first_difference(one: &[u8], other: &[u8]) -> usize {
    let mut line = 1usize;
    for (byte, same) in one.iter().zip(other.iter()) {
        if byte != same {
            return line;
        }
        if *byte == b'\n' {
            line = line.saturating_add(1);
        }
    }
    line
}

/// Reads the text of a table.
///
/// # Errors
///
/// T01 with the first line that isn't as `campaign` writes it. The jobs' numbers must increase by one, and the last
/// line must count them.
pub fn read_table(alloc: Global, text: &str) -> Result<Part, TableFault>
    // The text is the table's, byte for byte.
    ensures { IfOk result (λ part. text.now ≡ table_text part.first part.table.results.items) }
{
    let part = part_of(alloc, text)?;
    let expected = table_text(alloc, part.first, &part.table)?;
    let (expected, text) = (expected.as_bytes(), text.as_bytes());
    if expected == text {
        return Ok(part);
    }
    Err(TableFault::Syntax {
        line: first_difference(expected, text),
    })
}
