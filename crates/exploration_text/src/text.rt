//! Makes the text of an answer.

ghost use Rattle.std.specs.Prelude.{◌≡◌, ◌++◌, IfOk, OnOk};
ghost use Rattle.std.specs.Fmt.{decimal};
ghost use Rattle.std.specs.String.{string_bytes};
ghost use Rattle.exploration_text.specs.Texts.{answer_text, counts_text, covered_words, failures_text, found_words, level_line, part_text, rest_text};

use crate::failing::failing_words;
use crate::within::push_within;
use atom_spec::Spec;
use exploration_parts::Part;
use exploring::{Answer, Level, LevelRuns, Plan};
use std::alloc::{AllocError, Global};

/// Appends a word and a number.
fn push_count(alloc: Global, text: &mut String, word: &str, count: u64) -> Result<(), AllocError>
    ensures { OnOk result (string_bytes text.new ≡ string_bytes text.old ++ word.now ++ decimal count) }
{
    text.push_str(word)?;
    let digits = format!(in alloc; "{count}")?;
    text.push_str(digits.as_str())?;
    Ok(())
}

/// Appends the counts of the ways in which runs of a level failed.
fn push_failures(alloc: Global, text: &mut String, level: Level) -> Result<(), AllocError>
    ensures { OnOk result (string_bytes text.new ≡ string_bytes text.old ++ failures_text level) }
{
    push_count(alloc, text, " cycle ", level.cycle)?;
    push_count(alloc, text, " uncaught ", level.uncaught)?;
    push_count(alloc, text, " deadlocked ", level.deadlocked)?;
    push_count(alloc, text, " stalled ", level.stalled)?;
    push_count(alloc, text, " running ", level.running)?;
    Ok(())
}

/// Returns the words of a level's counts.
fn counts_text(alloc: Global, level: Level) -> Result<String, AllocError>
    ensures { IfOk result (λ text. string_bytes text ≡ counts_text level) }
{
    let mut text = String::new(alloc);
    push_count(alloc, &mut text, "departures ", level.departures)?;
    push_count(alloc, &mut text, " runs ", level.runs)?;
    push_failures(alloc, &mut text, level)?;
    Ok(text)
}

/// Appends ` of M` for a level of this number of jobs, unless all were run.
fn push_rest(alloc: Global, line: &mut String, is_whole: bool, jobs: u64) -> Result<(), AllocError>
    ensures { OnOk result (string_bytes line.new ≡ string_bytes line.old ++ rest_text is_whole jobs) }
{
    if is_whole {
        return Ok(());
    }
    push_count(alloc, line, " of ", jobs)
}

/// Returns the line of a level, with its end.
pub fn level_line(alloc: Global, runs: LevelRuns) -> Result<String, AllocError>
    ensures { IfOk result (λ line. string_bytes line ≡ level_line runs) }
{
    let mut line = counts_text(alloc, runs.level)?;
    push_rest(alloc, &mut line, runs.level.runs == runs.jobs, runs.jobs)?;
    line.push_str("\n")?;
    Ok(line)
}

/// Returns the words of an exploration that covers all up to this number of departures.
fn covered_words(alloc: Global, most: u64, within: &Spec) -> Result<String, AllocError>
    ensures { IfOk result (λ line. string_bytes line ≡ covered_words most within.now) }
{
    let mut line = format!(in alloc; "covered {most}")?;
    push_within(&mut line, within.lines())?;
    Ok(line)
}

/// Returns the words of what an exploration up to this number of departures found.
fn found_words(
    alloc: Global,
    most: u64,
    within: &Spec,
    answer: &Answer,
) -> Result<String, AllocError>
    ensures { IfOk result (λ line. string_bytes line ≡ found_words most within.now answer.now.is_covered answer.now.failing) }
{
    match &answer.failing {
        Some(run) => failing_words(alloc, run),
        None if answer.is_covered => covered_words(alloc, most, within),
        None => String::from_str(alloc, "stopped"),
    }
}

/// Appends ` part I/N`, or nothing for an exploration of all schedules.
pub fn push_part(alloc: Global, line: &mut String, part: Option<Part>) -> Result<(), AllocError>
    ensures { OnOk result (string_bytes line.new ≡ string_bytes line.old ++ part_text part) }
{
    let Some(Part { index, count }) = part else {
        return Ok(());
    };
    let words = format!(in alloc; " part {index}/{count}")?;
    line.push_str(words.as_str())?;
    Ok(())
}

/// Returns the text of the answer of an exploration under a plan, up to this number of departures: a line for each level, and
/// a last one of what was found. If all is covered, it names the patterns of the methods in which threads were left. It ends
/// with the part, if the plan has one.
pub fn answer_text(
    alloc: Global,
    most: u64,
    plan: &Plan,
    answer: &Answer,
) -> Result<String, AllocError>
    ensures { IfOk result (λ text. string_bytes text ≡ answer_text most plan.now answer.now) }
{
    let mut text = String::new(alloc);
    for runs in answer.levels.as_slice() {
        text.push_str(level_line(alloc, *runs)?.as_str())?;
    }
    text.push_str(found_words(alloc, most, &plan.within, answer)?.as_str())?;
    push_part(alloc, &mut text, plan.part)?;
    text.push_str("\n")?;
    Ok(text)
}
