//! Makes the texts of what explorations found.

ghost use Rattle.std.specs.Prelude.{◌≡◌, ◌++◌, codes, IfOk, None};
ghost use Rattle.std.specs.String.{string_bytes};
ghost use Rattle.exploration_text.specs.Texts.{schedule_text};
ghost use Rattle.exploration_joins.specs.Texts.{found_text, text_of};

use crate::found::Found;
use crate::joined::Joined;
use departures::Departure;
use exploration_parts::Part;
use exploration_text::{level_line, push_part, schedule_text};
use exploring::LevelRuns;
use std::alloc::{AllocError, Global};

/// Returns the words of a run that fails.
fn failing_text(alloc: Global, departures: &[Departure], words: &str) -> Result<String, AllocError>
    ensures { IfOk result (λ text. string_bytes text
        ≡ codes "failing " ++ schedule_text departures.now ++ codes " " ++ words.now) }
{
    let schedule = schedule_text(alloc, departures)?;
    let mut text = String::from_str(alloc, "failing ")?;
    text.push_str(schedule.as_str())?;
    text.push_str(" ")?;
    text.push_str(words)?;
    Ok(text)
}

/// Returns the words of an exploration that covers all.
fn covered_text(alloc: Global, words: &str) -> Result<String, AllocError>
    ensures { IfOk result (λ text. string_bytes text ≡ codes "covered " ++ words.now) }
{
    let mut text = String::from_str(alloc, "covered ")?;
    text.push_str(words)?;
    Ok(text)
}

/// Returns the words of what was found.
fn found_text(alloc: Global, found: &Found) -> Result<String, AllocError>
    ensures { IfOk result (λ text. string_bytes text ≡ found_text found.now) }
{
    match found {
        Found::Failing { departures, words } => {
            failing_text(alloc, departures.as_slice(), words.as_str())
        }
        Found::Covered { words } => covered_text(alloc, words.as_str()),
        Found::Stopped => String::from_str(alloc, "stopped"),
    }
}

/// Returns the text of what was found: a line for each level, and a last one, which ends with the part, if there is one.
pub(crate) fn text_of(
    alloc: Global,
    levels: &[LevelRuns],
    found: &Found,
    part: Option<Part>,
) -> Result<String, AllocError>
    ensures { IfOk result (λ text. string_bytes text ≡ text_of levels.now found.now part) }
{
    let mut text = String::new(alloc);
    for runs in levels {
        text.push_str(level_line(alloc, *runs)?.as_str())?;
    }
    text.push_str(found_text(alloc, found)?.as_str())?;
    push_part(alloc, &mut text, part)?;
    text.push_str("\n")?;
    Ok(text)
}

/// Returns the text of what parts found together, as `explore` prints that of the whole.
pub fn joined_text(alloc: Global, joined: &Joined) -> Result<String, AllocError>
    ensures { IfOk result (λ text. string_bytes text
        ≡ text_of joined.now.levels.items joined.now.found None) }
{
    text_of(alloc, joined.levels.as_slice(), &joined.found, None)
}
