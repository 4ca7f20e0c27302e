//! Reads the text of a part of an exploration.

ghost use Rattle.std.specs.Prelude.{◌≡◌, ◌<◌, IfOk, IfSome};
ghost use Rattle.std.specs.String.{string_bytes};
ghost use Rattle.exploration_joins.specs.Texts.{AreNumbered, text_of_part};

use crate::fault::PartFault;
use crate::found::Found;
use crate::part::PartText;
use crate::text::text_of;
use departures::Departure;
use exploration_parts::Part;
use exploring::{Level, LevelRuns};
use std::alloc::{AllocError, Global};

/// Returns the number that a word of a line spells.
fn number_at(words: &[&str], place: usize) -> Option<u64> {
    words.get(place)?.parse::<u64>().ok()
}

/// Returns what a line's words count, as the runs of this level, or `None` if a count is missing. Doesn't compare the words that
/// are the same in each line.
fn runs_of(words: &[&str], level: u64) -> Option<LevelRuns>
    ensures { IfSome result (λ runs. runs.level.departures ≡ level) }
{
    if *words.first()? != "departures" {
        return None;
    }
    let runs = number_at(words, 3)?;
    let level = Level {
        departures: level,
        runs,
        cycle: number_at(words, 5)?,
        uncaught: number_at(words, 7)?,
        deadlocked: number_at(words, 9)?,
        stalled: number_at(words, 11)?,
        running: number_at(words, 13)?,
    };
    let jobs = number_at(words, 15).unwrap_or(runs);
    Some(LevelRuns { level, jobs })
}

/// Returns the words of a line.
fn words_of(alloc: Global, line: &str) -> Result<Vec<&str>, AllocError> {
    let mut words = Vec::new(alloc);
    for word in line.split(' ') {
        words.push(word)?;
    }
    Ok(words)
}

/// Returns the levels of the lines before the first line that is no level's. Lines may be misspelled.
fn levels_of(alloc: Global, text: &str) -> Result<Vec<LevelRuns>, AllocError>
    ensures { IfOk result (λ levels. AreNumbered levels.items) }
{
    let mut levels = Vec::new(alloc);
    for line in text.split('\n') {
        let words = words_of(alloc, line)?;
        let Some(runs) = runs_of(words.as_slice(), levels.len() as u64) else {
            break;
        };
        levels.push(runs)?;
    }
    Ok(levels)
}

/// Returns the departure that a word spells.
fn departure_of(word: &str) -> Option<Departure> {
    let (position, thread) = word.split_once('=')?;
    Some(Departure {
        position: position.parse::<u64>().ok()?,
        thread: thread.parse::<u32>().ok()?,
    })
}

/// Returns the departures of a schedule, before the first word that is none.
fn departures_of(alloc: Global, schedule: &str) -> Result<Vec<Departure>, AllocError> {
    let mut departures = Vec::new(alloc);
    let list = schedule.strip_prefix("stay:").unwrap_or("");
    for word in list.split(',') {
        let Some(departure) = departure_of(word) else {
            break;
        };
        departures.push(departure)?;
    }
    Ok(departures)
}

/// Returns what the words of a last line say.
fn found_of(alloc: Global, text: &str) -> Result<Found, AllocError> {
    if let Some(rest) = text.strip_prefix("failing ") {
        let (schedule, rest) = rest.split_once(' ').unwrap_or((rest, ""));
        let words = String::from_str(alloc, rest)?;
        let departures = departures_of(alloc, schedule)?;
        return Ok(Found::Failing { departures, words });
    }
    if let Some(rest) = text.strip_prefix("covered ") {
        let words = String::from_str(alloc, rest)?;
        return Ok(Found::Covered { words });
    }
    Ok(Found::Stopped)
}

/// Returns the part that a word I/N spells.
fn part_of(word: &str) -> Option<Part> {
    let (index, count) = word.split_once('/')?;
    Some(Part {
        index: index.parse::<u64>().ok()?,
        count: count.parse::<u64>().ok()?,
    })
}

/// Returns the line at a place, or an empty one if there is none.
fn line_at(text: &str, place: usize) -> &str {
    text.split('\n').nth(place).unwrap_or("")
}

/// Returns what the lines of a text say. Lines may be misspelled.
fn lines_of(alloc: Global, text: &str) -> Result<PartText, AllocError>
    ensures { IfOk result (λ text. AreNumbered text.levels.items) }
{
    let levels = levels_of(alloc, text)?;
    let line = line_at(text, levels.len());
    let (words, part) = line.rsplit_once(" part ").unwrap_or((line, ""));
    let part = part_of(part).unwrap_or(Part { index: 0, count: 1 });
    let found = found_of(alloc, words)?;
    Ok(PartText {
        part,
        levels,
        found,
    })
}

/// Returns the text of a part.
fn text_of_part(alloc: Global, text: &PartText) -> Result<String, AllocError>
    ensures { IfOk result (λ spelled. string_bytes spelled ≡ text_of_part text.now) }
{
    text_of(alloc, text.levels.as_slice(), &text.found, Some(text.part))
}

/// Returns the first line, from 1, in which two texts differ.
fn first_difference(one: &[u8], other: &[u8]) -> usize {
    let mut line = 1usize;
    for (byte, same) in one.iter().zip(other.iter()) {
        if byte != same {
            return line;
        }
        if *byte == b'\n' {
            line = line.saturating_add(1);
        }
    }
    line
}

/// Reads the text of a part of an exploration.
///
/// # Errors
///
/// T01 with the first line that isn't as `explore --part` writes it. The levels must be those from 0 on, and the part's number
/// less than the number of parts.
pub fn read_part(alloc: Global, text: &str) -> Result<PartText, PartFault>
    // The text is the part's, byte for byte.
    ensures text { IfOk result (λ part. text.now ≡ text_of_part part) }
    ensures part { IfOk result (λ part. part.part.index < part.part.count) }
    ensures levels { IfOk result (λ part. AreNumbered part.levels.items) }
{
    let part = lines_of(alloc, text)?;
    let expected = text_of_part(alloc, &part)?;
    let (expected, text) = (expected.as_bytes(), text.as_bytes());
    if expected != text {
        return Err(PartFault::Syntax {
            line: first_difference(expected, text),
        });
    }
    let Part { index, count } = part.part;
    if index < count {
        return Ok(part);
    }
    Err(PartFault::Syntax {
        line: part.levels.len().saturating_add(1),
    })
}
