//! Reads the words that name a program and its entry.

use crate::entry::{main_entry, natural_of, static_entry};
use crate::fault::WordsFault;
use crate::syntax::{ARGUMENTS, ENTRY, FILES, MOST};
use clap::ArgMatches;
use jvms_machine::machine::Entry;
use std::alloc::Global;
use turn_limit::TurnLimit;

/// The maximum number of turns without `--max`.
const DEFAULT_MOST: u64 = 1_000_000;

/// The words that name a program and its entry. `eval` has no others, and `run`, `trace`, `debug`, `campaign`, `explore`
/// and `shrink` have options besides.
#[derive(Debug, Drop)]
pub struct ProgramWords<'a> {
    pub entry: Entry,
    pub names: ProgramNames<'a>,
}

/// The names of a program, as spelled in the words.
#[derive(Debug, Drop)]
pub struct ProgramNames<'a> {
    /// The entry. It is empty in `needs`, which has none.
    pub entry: &'a str,
    /// The arguments of the entry, if the words have any.
    pub arguments: Option<&'a str>,
    /// The class files and sources, at least one.
    pub files: Vec<&'a str>,
}

impl<'a> ProgramNames<'a> {
    /// Returns the file at a place of the words.
    pub fn file(&self, place: usize) -> &'a str {
        self.files.get(place).copied().unwrap_or("")
    }
}

/// Returns the FILEs of the words.
pub(crate) fn files_of<'a>(
    alloc: Global,
    matches: &ArgMatches<'a>,
) -> Result<Vec<&'a str>, WordsFault> {
    let words = matches.get_strs(FILES).ok_or(WordsFault::Words)?;
    let mut files = Vec::new(alloc);
    for word in words {
        files.push(*word)?;
    }
    Ok(files)
}

/// Returns the entry of a text. Without a dot it is a main class, which takes no arguments.
fn entry_of(alloc: Global, text: &str, matches: &ArgMatches<'_>) -> Result<Entry, WordsFault> {
    if text.contains('.') {
        static_entry(alloc, text, matches.get_str(ARGUMENTS))
    } else if matches.get_str(ARGUMENTS).is_none() {
        main_entry(alloc, text)
    } else {
        Err(WordsFault::Words)
    }
}

/// Returns the words that name a program.
pub(crate) fn program_words<'a>(
    alloc: Global,
    matches: &ArgMatches<'a>,
) -> Result<ProgramWords<'a>, WordsFault> {
    let entry = matches.get_str(ENTRY).ok_or(WordsFault::Words)?;
    let files = files_of(alloc, matches)?;
    Ok(ProgramWords {
        entry: entry_of(alloc, entry, matches)?,
        names: ProgramNames {
            entry,
            arguments: matches.get_str(ARGUMENTS),
            files,
        },
    })
}

/// Returns the names of a program without an entry.
pub(crate) fn names_without_entry<'a>(
    alloc: Global,
    matches: &ArgMatches<'a>,
) -> Result<ProgramNames<'a>, WordsFault> {
    Ok(ProgramNames {
        entry: "",
        arguments: None,
        files: files_of(alloc, matches)?,
    })
}

/// Returns the number that the value of an option spells, or the default if there is no such option.
pub(crate) fn number_or(
    matches: &ArgMatches<'_>,
    option: &str,
    default: u64,
) -> Result<u64, WordsFault> {
    match matches.get_str(option) {
        None => Ok(default),
        Some(text) => natural_of(text).ok_or(WordsFault::Words),
    }
}

/// Returns the maximum number of turns, or the default if the words don't say it.
pub(crate) fn most_or(matches: &ArgMatches<'_>, default: u64) -> Result<TurnLimit, WordsFault> {
    let most = number_or(matches, MOST, default)?;
    TurnLimit::new(most).ok_or(WordsFault::Words)
}

/// Returns the maximum number of turns.
pub(crate) fn most_of(matches: &ArgMatches<'_>) -> Result<TurnLimit, WordsFault> {
    most_or(matches, DEFAULT_MOST)
}
