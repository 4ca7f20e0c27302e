//! Writes what `help P04 -- WORDS` prints: why words are no command line.

use crate::command::{is_text, parsed};
use crate::entry::{main_entry, natural_of, static_entry};
use crate::explore::{may_be_departures, may_be_runs, may_be_workers, part_in};
use crate::fault::WordsFault;
use crate::screen::shown_line;
use crate::syntax::{
    ARGUMENTS, DEPARTURES, ENTRY, FIRST, JOBS, MOST, PART, PRIORITIES, RUNS, SEED, WORKERS, syntax,
};
use clap::ArgMatches;
use escapes::cut_twice;
use priority_limits::Depth;
use std::alloc::{AllocError, Global};
use turn_limit::TurnLimit;

/// The options of `run`, `trace` and `debug` whose value is a number.
const RUN_NUMBERS: [&str; 1] = [MOST];

/// The options of `campaign` whose value is a number.
const CAMPAIGN_NUMBERS: [&str; 6] = [JOBS, FIRST, SEED, PRIORITIES, WORKERS, MOST];

/// The options of `explore` whose value is a number.
const EXPLORE_NUMBERS: [&str; 4] = [DEPARTURES, RUNS, MOST, WORKERS];

/// The options of `shrink` whose value is a number.
const SHRINK_NUMBERS: [&str; 2] = [MOST, RUNS];

/// What the entry of a static method has to be.
const METHOD_WANTED: &str =
    "a static method is C.m.D, where D is as (II)I or ()V; a class a.b.C is a/b/C";

/// What follows `help`.
const HELP_WANTED: &str =
    "help takes the name of a command, a code in capitals as C03, or P04 -- WORDS\n";

/// Returns the options of a command whose value is a number.
fn numbers_of(command: &str) -> &'static [&'static str] {
    match command {
        "run" | "trace" | "debug" => &RUN_NUMBERS,
        "campaign" => &CAMPAIGN_NUMBERS,
        "explore" => &EXPLORE_NUMBERS,
        "shrink" => &SHRINK_NUMBERS,
        _ => &[],
    }
}

/// Returns whether a command has an entry.
fn has_entry(command: &str) -> bool {
    matches!(
        command,
        "eval" | "run" | "trace" | "debug" | "campaign" | "explore" | "shrink"
    )
}

/// Returns the line of what the value of an option must be.
fn wanted_line(
    alloc: Global,
    option: &str,
    value: &str,
    wanted: &str,
) -> Result<String, AllocError> {
    format!(in alloc; "--{option} {value}: {wanted}\n")
}

/// Returns what the value of a numeric option of `explore` or `shrink` must be, if it is another number.
fn explore_wanted(option: &str, number: u64) -> Option<&'static str> {
    match option {
        DEPARTURES if !may_be_departures(number) => Some("at most 16"),
        RUNS if !may_be_runs(number) => Some("from 1 to 1000000000"),
        WORKERS if !may_be_workers(number) => Some("from 1 to 64"),
        _ => None,
    }
}

/// Returns what the value of a numeric option must be, if it isn't that.
fn number_wanted(command: &str, option: &str, value: &str) -> Option<&'static str> {
    match natural_of(value) {
        None => Some("decimal digits, below 18446744073709551616"),
        Some(most) if option == MOST => TurnLimit::new(most)
            .is_none()
            .then_some("at most 100000000"),
        Some(depth) if option == PRIORITIES => {
            Depth::new(depth).is_none().then_some("from 1 to 64")
        }
        Some(number) if command == "explore" || command == "shrink" => {
            explore_wanted(option, number)
        }
        Some(_) => None,
    }
}

/// Returns the line of the first number that is out of range.
fn number_line(
    alloc: Global,
    command: &str,
    matches: &ArgMatches<'_>,
) -> Result<Option<String>, AllocError> {
    for option in numbers_of(command) {
        if let Some(value) = matches.get_str(option)
            && let Some(wanted) = number_wanted(command, option, value)
        {
            return Ok(Some(wanted_line(alloc, option, value, wanted)?));
        }
    }
    Ok(None)
}

/// Returns the line of a part of `explore` that is none.
fn part_line(alloc: Global, matches: &ArgMatches<'_>) -> Result<Option<String>, AllocError> {
    let Some(value) = matches.get_str(PART) else {
        return Ok(None);
    };
    if part_in(value).is_some() {
        return Ok(None);
    }
    let wanted = "I/N, with I below N, and N at most 1000000";
    Ok(Some(wanted_line(alloc, PART, value, wanted)?))
}

/// Returns whether words could be read. Lack of memory remains an error.
fn is_read<T: Drop>(read: Result<T, WordsFault>) -> Result<bool, WordsFault> {
    match read {
        Ok(value) => {
            drop(value);
            Ok(true)
        }
        Err(WordsFault::Words) => Ok(false),
        Err(WordsFault::Memory) => Err(WordsFault::Memory),
    }
}

/// Returns what an entry must be, if it isn't that.
fn entry_wanted(
    alloc: Global,
    command: &str,
    entry: &str,
) -> Result<Option<&'static str>, WordsFault> {
    if !entry.contains('.') {
        if command == "eval" {
            return Ok(Some("eval runs a static method, C.m.D"));
        }
        let is_name = is_read(main_entry(alloc, entry))?;
        return Ok((!is_name).then_some("the name of a class, as a/b/C"));
    }
    if !entry.contains('(') || cut_twice(entry.as_bytes(), b'.').is_none() {
        return Ok(Some(METHOD_WANTED));
    }
    let is_entry = is_read(static_entry(alloc, entry, None))?;
    Ok((!is_entry).then_some("a class, a name and a descriptor, as the class file has them"))
}

/// Returns what arguments must be, if they aren't that.
fn arguments_wanted(
    alloc: Global,
    entry: &str,
    arguments: &str,
) -> Result<Option<&'static str>, WordsFault> {
    if !entry.contains('.') {
        return Ok(Some("a main class has no arguments"));
    }
    let are_numbers = is_read(static_entry(alloc, entry, Some(arguments)))?;
    Ok(
        (!are_numbers).then_some(
            "decimal numbers in the ranges of the parameters, parted by commas",
        ),
    )
}

/// Returns the line of an entry, or of its arguments, if they are malformed.
fn entry_line(
    alloc: Global,
    command: &str,
    matches: &ArgMatches<'_>,
) -> Result<Option<String>, WordsFault> {
    let entry = matches.get_str(ENTRY).unwrap_or("");
    if let Some(wanted) = entry_wanted(alloc, command, entry)? {
        return Ok(Some(wanted_line(alloc, ENTRY, entry, wanted)?));
    }
    let Some(arguments) = matches.get_str(ARGUMENTS) else {
        return Ok(None);
    };
    match arguments_wanted(alloc, entry, arguments)? {
        Some(wanted) => Ok(Some(wanted_line(alloc, ARGUMENTS, arguments, wanted)?)),
        None => Ok(None),
    }
}

/// Returns the line of what the argument parser accepts and the command doesn't.
fn command_line(
    alloc: Global,
    command: &str,
    matches: &ArgMatches<'_>,
) -> Result<String, WordsFault> {
    if let Some(line) = number_line(alloc, command, matches)? {
        return Ok(line);
    }
    if command == "explore"
        && let Some(line) = part_line(alloc, matches)?
    {
        return Ok(line);
    }
    if has_entry(command)
        && let Some(line) = entry_line(alloc, command, matches)?
    {
        return Ok(line);
    }
    let line = match command {
        "asm" => "IN and OUT are one name: the source would be replaced\n",
        "campaign" => "--first and --jobs: a job's number would be past 18446744073709551615\n",
        _ => "no command line\n",
    };
    Ok(String::from_str(alloc, line)?)
}

/// Returns a hint for an argument that the parser doesn't expect, if it looks like a negative number.
fn number_hint(message: &str) -> &'static str {
    let Some(rest) = message.strip_prefix("unexpected argument '-") else {
        return "";
    };
    match rest.as_bytes().first() {
        Some(byte) if byte.is_ascii_digit() => ": a negative first number is --args=-7,2",
        _ => "",
    }
}

/// Returns the first paragraph of the argument parser's message, with a hint.
fn parser_line(alloc: Global, error: &clap::Error) -> Result<String, WordsFault> {
    let text = format!(in alloc; "{error}")?;
    let message = text
        .as_str()
        .strip_prefix("error: ")
        .unwrap_or(text.as_str());
    let first = message.split("\n\n").next().unwrap_or(message);
    let first = first.strip_suffix('\n').unwrap_or(first);
    let hint = number_hint(first);
    let line = format!(in alloc; "{first}{hint}\n")?;
    Ok(line)
}

/// Returns whether words ask for a text of `help` that there isn't.
fn is_help(words: &[String]) -> bool {
    match words.first() {
        Some(word) => word.as_str() == "help",
        None => false,
    }
}

/// Returns words as they are shown at a terminal.
fn shown_words(alloc: Global, words: &[String]) -> Result<Vec<String>, AllocError> {
    let mut shown = Vec::new(alloc);
    for word in words {
        shown.push(shown_line(alloc, word.as_str())?)?;
    }
    Ok(shown)
}

/// Returns the message with which the argument parser refuses words, given as a terminal shows them. A word with
/// control characters names no option and no command, so the parser refuses the words themselves for the same reason.
fn parser_text(alloc: Global, shown: &[String]) -> Result<String, WordsFault> {
    match syntax(alloc)?.try_get_matches_from(shown) {
        Err(error) => parser_line(alloc, &error),
        Ok(_) => Ok(String::from_str(alloc, "no command line\n")?),
    }
}

/// Returns a line as it is shown at a terminal.
fn screen_line(alloc: Global, line: &str) -> Result<String, AllocError> {
    let line = line.strip_suffix('\n').unwrap_or(line);
    let mut shown = shown_line(alloc, line)?;
    shown.push('\n')?;
    Ok(shown)
}

/// Returns why a command's words are refused, if the argument parser accepts them.
fn matched_line(alloc: Global, matches: &ArgMatches<'_>) -> Result<String, WordsFault> {
    match matches.subcommand() {
        Some((command, matches)) => command_line(alloc, command, matches),
        None => Ok(String::from_str(alloc, "no command is named\n")?),
    }
}

/// Returns a text about words which doesn't depend on what they are, if there is one.
fn fixed_text(alloc: Global, words: &[String]) -> Result<Option<&'static str>, WordsFault> {
    if is_text(words) || is_read(parsed(alloc, words))? {
        return Ok(Some("these words are a command line\n"));
    }
    Ok(is_help(words).then_some(HELP_WANTED))
}

/// Returns why words are refused with P04, or that they are a command line.
pub fn words_text(alloc: Global, words: &[String]) -> Result<String, WordsFault> {
    if let Some(text) = fixed_text(alloc, words)? {
        return Ok(String::from_str(alloc, text)?);
    }
    match syntax(alloc)?.try_get_matches_from(words) {
        Err(error) => parser_line(alloc, &error),
        Ok(matches) => matched_line(alloc, &matches),
    }
}

/// Returns what `words_text` does, as it is shown at a terminal: without control characters but for its line ends.
pub fn shown_words_text(alloc: Global, words: &[String]) -> Result<String, WordsFault> {
    if let Some(text) = fixed_text(alloc, words)? {
        return Ok(String::from_str(alloc, text)?);
    }
    match syntax(alloc)?.try_get_matches_from(words) {
        Err(_) => parser_text(alloc, shown_words(alloc, words)?.as_slice()),
        Ok(matches) => {
            let line = matched_line(alloc, &matches)?;
            Ok(screen_line(alloc, line.as_str())?)
        }
    }
}
