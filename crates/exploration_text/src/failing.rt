//! Makes the line of a run that fails.

ghost use Rattle.std.specs.Prelude.{◌≡◌, ◌++◌, IfOk, OnOk};
ghost use Rattle.std.specs.List.{flat_map};
ghost use Rattle.std.specs.String.{string_bytes};
ghost use Rattle.exploration_text.specs.Texts.{departure_text, failing_line, failing_words, next_departure_text, schedule_text, uncaught_text};

use campaign_text::push_result;
use escapes::put_name;
use exploring::{Departure, FailingRun, Uncaught};
use std::alloc::{AllocError, Global};

/// Appends the text of a departure.
fn push_departure(alloc: Global, text: &mut String, departure: Departure) -> Result<(), AllocError>
    ensures { OnOk result (string_bytes text.new ≡ string_bytes text.old ++ departure_text departure) }
{
    let Departure { position, thread } = departure;
    let word = format!(in alloc; "{position}={thread}")?;
    text.push_str(word.as_str())?;
    Ok(())
}

/// Appends departures, each after a comma.
fn push_others(alloc: Global, text: &mut String, departures: &[Departure]) -> Result<(), AllocError>
    ensures { OnOk result (string_bytes text.new ≡ string_bytes text.old ++ flat_map next_departure_text departures.now) }
{
    for departure in departures {
        text.push_str(",")?;
        push_departure(alloc, text, *departure)?;
    }
    Ok(())
}

/// Returns the schedule with these departures: `stay:N=T,..`.
pub fn schedule_text(alloc: Global, departures: &[Departure]) -> Result<String, AllocError>
    ensures { IfOk result (λ text. string_bytes text ≡ schedule_text departures.now) }
{
    let mut text = String::from_str(alloc, "stay:")?;
    if let Some((first, others)) = departures.split_first() {
        push_departure(alloc, &mut text, *first)?;
        push_others(alloc, &mut text, others)?;
    }
    Ok(text)
}

/// Appends the first thread that ended by an exception, if one did.
fn push_uncaught(alloc: Global, line: &mut String, uncaught: &[Uncaught]) -> Result<(), AllocError>
    ensures { OnOk result (string_bytes line.new ≡ string_bytes line.old ++ uncaught_text uncaught.now) }
{
    let Some((thread, class)) = uncaught.first() else {
        return Ok(());
    };
    let words = format!(in alloc; " uncaught {thread} ")?;
    line.push_str(words.as_str())?;
    put_name(line, class.as_slice())?;
    Ok(())
}

/// Returns the words of a run that fails.
pub(crate) fn failing_words(alloc: Global, run: &FailingRun) -> Result<String, AllocError>
    ensures { IfOk result (λ line. string_bytes line ≡ failing_words run.now) }
{
    let schedule = schedule_text(alloc, run.departures.as_slice())?;
    let mut line = String::from_str(alloc, "failing ")?;
    line.push_str(schedule.as_str())?;
    line.push_str(" ")?;
    push_result(alloc, &mut line, run.fate.result)?;
    push_uncaught(alloc, &mut line, run.ending.uncaught.as_slice())?;
    Ok(line)
}

/// Returns the line of a run that fails, with its end.
pub fn failing_line(alloc: Global, run: &FailingRun) -> Result<String, AllocError>
    ensures { IfOk result (λ line. string_bytes line ≡ failing_line run.now) }
{
    let mut line = failing_words(alloc, run)?;
    line.push_str("\n")?;
    Ok(line)
}
