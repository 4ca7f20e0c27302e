//! Measures how many events a second the checker takes without any text. It feeds the items of a few lines again and
//! again. The arguments are a shape, the number of threads and the number of events.
#![tactic(auto)]

use atom_graph::Checker;
use atom_spec::Spec;
use std::alloc::{AllocError, Global};
use std::process::ExitCode;
use std::{env, io};
use trace::Trace;
use velodrome::verdict::Verdict;

/// The default arguments.
const SHAPE: &str = "locked";

const THREADS: u32 = 2;

const EVENTS: u64 = 1_000;

/// The maximum number of threads.
const MOST_THREADS: u32 = 64;

/// Returns the lines of a thread in each round. By default it enters a method that takes a lock and then reads and
/// writes what the lock protects. With `read_by_all` it only reads shared fields. With `one_variable` it reads and
/// writes in no method.
fn lines_of(alloc: Global, shape: &str, t: u32) -> Result<String, AllocError> {
    match shape {
        "read_by_all" => format!(in alloc;
            "enter {t} C.get.()I\nrd {t} C.x.I\nrd {t} C.y.I\nexit {t} C.get.()I\n"
        ),
        "one_variable" => format!(in alloc; "rd {t} C.x.I\nwr {t} C.x.I\n"),
        _ => format!(in alloc;
            "enter {t} C.inc.()V\nacq {t} 5\nrd {t} C.x.I\nwr {t} C.x.I\nrel {t} 5\nexit {t} C.inc.()V\n"
        ),
    }
}

/// Returns the lines before all rounds. With `one_open`, thread 1 enters a method that stays open.
fn opening_of(shape: &str) -> &str {
    match shape {
        "one_open" => "enter 1 C.all.()V\nrd 1 C.z.I\n",
        _ => "",
    }
}

/// Returns the lines after each round. With `read_by_all` it is a write.
fn behind_round(shape: &str) -> &str {
    match shape {
        "read_by_all" => "enter 1 C.set.()V\nwr 1 C.x.I\nexit 1 C.set.()V\n",
        _ => "",
    }
}

/// Returns the lines of a round of all threads. With `one_open`, thread 1 takes no part.
fn round_of(alloc: Global, shape: &str, threads: u32) -> Result<String, AllocError> {
    let first = if shape == "one_open" { 2 } else { 1 };
    let mut text = String::new(alloc);
    for t in first..=threads.min(MOST_THREADS) {
        text.push_str(lines_of(alloc, shape, t)?.as_str())?;
    }
    text.push_str(behind_round(shape))?;
    Ok(text)
}

/// Feeds all items of a trace.
fn feed(checker: &mut Checker, trace: &Trace) -> Option<()> {
    for item in trace.items() {
        checker.feed(item).ok()?;
    }
    Some(())
}

/// Returns the items before all rounds, and those of a round.
fn traces_of(alloc: Global, shape: &str, threads: u32) -> Option<(Trace, Trace)> {
    let opening = trace_text::read(alloc, opening_of(shape)).ok()?;
    let text = round_of(alloc, shape, threads).ok()?;
    let round = trace_text::read(alloc, text.as_str()).ok()?;
    Some((opening, round))
}

/// Returns a checker for which every method is atomic.
fn checker_of_all(alloc: Global) -> Option<Checker> {
    let spec = Spec::read(alloc, "atomic *\n").ok()?;
    Checker::new(alloc, spec).ok()
}

/// Feeds rounds until the checker has `events` events.
fn feed_rounds(checker: &mut Checker, round: &Trace, events: u64) -> Option<()> {
    for _ in 0..events {
        if checker.counts().events >= events {
            break;
        }
        feed(checker, round)?;
    }
    Some(())
}

/// Feeds the items before all rounds, and then rounds.
fn feed_all(checker: &mut Checker, opening: &Trace, round: &Trace, events: u64) -> Option<()> {
    feed(checker, opening)?;
    feed_rounds(checker, round, events)
}

/// Returns a checker that was fed these items, the rounds until it has `events` events.
fn fed(alloc: Global, opening: &Trace, round: &Trace, events: u64) -> Option<Checker> {
    let mut checker = checker_of_all(alloc)?;
    feed_all(&mut checker, opening, round, events)?;
    Some(checker)
}

/// Returns the number that an argument spells, or the default.
fn number_of(word: Option<&String>, otherwise: u64) -> u64 {
    word.and_then(|word| word.parse().ok()).unwrap_or(otherwise)
}

/// Prints the verdict, the number of events and the number of transactions.
fn print(rt: &HostRuntime, checker: &Checker) -> io::Result<()> {
    let counts = checker.counts();
    let how = match checker.verdict()? {
        Verdict::Atomic { .. } => "atomic",
        Verdict::Cycle { .. } => "cycle",
    };
    println!(rt;
        "{how} events {} transactions {}",
        counts.events, counts.transactions
    )
}

/// Feeds a checker, and prints what it says. Returns `None` if memory ran out.
fn measure(rt: &HostRuntime, shape: &str, threads: u32, events: u64) -> Option<io::Result<()>> {
    let (opening, round) = traces_of(rt.alloc(), shape, threads)?;
    let checker = fed(rt.alloc(), &opening, &round, events)?;
    let printed = print(rt, &checker);
    drop(checker);
    Some(printed)
}

/// Measures what the words name, and returns the exit status.
fn perform(rt: &HostRuntime, words: &[String]) -> io::Result<ExitCode> {
    let shape = words.first().map_or(SHAPE, |word| word.as_str());
    let threads = number_of(words.get(1), u64::from(THREADS)).min(u64::from(MOST_THREADS)) as u32;
    let events = number_of(words.get(2), EVENTS);
    match measure(rt, shape, threads, events) {
        Some(printed) => printed.map(|()| ExitCode::SUCCESS),
        None => Ok(ExitCode::from(3)),
    }
}

fn main(rt: HostRuntime) -> io::Result<ExitCode> {
    let words: Vec<String> = env::args(&rt)?.skip(1).collect(rt.alloc())?;
    perform(&rt, words.as_slice())
}
