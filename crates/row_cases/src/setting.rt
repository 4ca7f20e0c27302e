//! Reads the settings of a case: its entry, its limits and its choices.

use cases::Case;
use fixtures::texts::units;
use machine::{Argument, Entry, Limits, ThreadId};
use shared_data::items::Items;
use std::alloc::{AllocError, Global};

/// Limits that only cases about limits reach.
const LIMITS: Limits = Limits {
    objects: 1000,
    elements: 1000,
    threads: 64,
    frames: 64,
};

/// The limit on the repetitions of a choice.
const MOST_CHOICES: usize = 10_000;

/// Returns the number of decimal digits, or 0 for any other word.
fn number(word: &str) -> u32 {
    word.parse().unwrap_or(0)
}

/// The limit that a word names.
#[derive(Clone, Copy)]
enum Named {
    Objects,
    Elements,
    Threads,
    Frames,
    Nothing,
}

fn named_by(word: &str) -> Named {
    match word {
        "objects" => Named::Objects,
        "elements" => Named::Elements,
        "threads" => Named::Threads,
        "frames" => Named::Frames,
        _ => Named::Nothing,
    }
}

/// Returns the limits with this number for the named one.
fn with_limit(limits: Limits, named: Named, most: u32) -> Limits {
    let mut limits = limits;
    match named {
        Named::Objects => limits.objects = most,
        Named::Elements => limits.elements = most,
        Named::Threads => limits.threads = most,
        Named::Frames => limits.frames = most,
        Named::Nothing => {}
    }
    limits
}

/// Returns the limits that words name, each followed by its number. The other limits are ample.
fn limits_of(words: &str) -> Limits {
    let mut limits = LIMITS;
    let mut named = Named::Nothing;
    for word in words.split_whitespace() {
        limits = with_limit(limits, named, number(word));
        named = named_by(word);
    }
    limits
}

/// Returns the limits of a case.
pub fn limits(case: &Case<'_>) -> Limits {
    limits_of(case.words("limits").unwrap_or(""))
}

/// Parses an argument, a long if its word ends with `J`, or else an int.
fn argument_of(word: &str) -> Argument {
    match word.strip_suffix('J') {
        Some(digits) => Argument::Long(digits.parse::<i64>().unwrap_or(0)),
        None => Argument::Int(word.parse::<i32>().unwrap_or(0)),
    }
}

/// Returns the entry that words name, with its arguments: a static method `C.m.D`, or the main of a class.
fn entry_of(alloc: Global, words: &str) -> Result<Entry, AllocError> {
    let mut words = words.split_whitespace();
    let named = words.next().unwrap_or("");
    let mut parts = named.split('.');
    let class = units(alloc, parts.next().unwrap_or(""))?;
    let Some(method) = parts.next() else {
        return Ok(Entry::Main { class });
    };
    let mut arguments = Vec::new(alloc);
    for word in words {
        arguments.push(argument_of(word))?;
    }
    Ok(Entry::Static {
        class,
        name: units(alloc, method)?,
        descriptor: units(alloc, parts.next().unwrap_or(""))?,
        arguments: Items::from_vec(arguments),
    })
}

/// Returns the entry of a case. That of its code is the method `m` of a class `M`.
pub fn entry(alloc: Global, case: &Case<'_>) -> Result<Entry, AllocError> {
    if let Some(words) = case.words("entry") {
        return entry_of(alloc, words);
    }
    let descriptor = case.words("code").unwrap_or("");
    let named = format!(in alloc; "M.m.{descriptor}")?;
    entry_of(alloc, named.as_str())
}

/// Returns a thread and the number of times that it is chosen.
fn choice(word: &str) -> (ThreadId, usize) {
    match word.split_once('x') {
        Some((t, times)) => (number(t), times.parse::<usize>().unwrap_or(0)),
        None => (number(word), 1),
    }
}

/// Returns the choices that words name.
pub fn choices(alloc: Global, words: &str) -> Result<Vec<ThreadId>, AllocError> {
    let mut choices = Vec::new(alloc);
    for word in words.split_whitespace() {
        let (t, times) = choice(word);
        for _ in 0..times.min(MOST_CHOICES) {
            choices.push(t)?;
        }
    }
    Ok(choices)
}
