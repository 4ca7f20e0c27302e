//! Feeds a checker small random traces, and prints a line for each with the checker's result. The last line is for many
//! writes of one thread.
//!
//! The expected output comes from a plain reading of the same traces, by bench/plain_reading.py. A checker may show one
//! of several orders or cycles, so these are not printed but tested here, by all pairs of events.
#![tactic(auto)]

mod cycle;
mod events;
mod making;
mod order;
mod steps;

use crate::cycle::{Shown, is_shown};
use crate::events::{Event, events_of};
use crate::making::{RandomTrace, any_trace};
use crate::order::{is_order, is_serial};
use crate::steps::text_of;
use atom_graph::Checker;
use atom_spec::Spec;
use rand_pcg::Lcg64Xsh32;
use std::alloc::{AllocError, Global};
use std::io;
use trace::Trace;
use velodrome::verdict::Verdict;

const TRACES: u32 = 3_000;

const WRITES: u32 = 100_000;

/// The state and the stream of the random words.
const SEED: u64 = 42;

const STREAM: u64 = 54;

/// Feeds all items of a trace.
fn feed(checker: &mut Checker, trace: &Trace) -> Option<()> {
    for item in trace.items() {
        checker.feed(item).ok()?;
    }
    Some(())
}

/// Returns a checker under the specification of a text.
fn checker_of(alloc: Global, spec: &str) -> Option<Checker> {
    let spec = Spec::read(alloc, spec).ok()?;
    Checker::new(alloc, spec).ok()
}

/// Returns a checker that was fed a trace.
fn fed(alloc: Global, trace: &RandomTrace) -> Option<Checker> {
    let text = text_of(alloc, trace.steps.as_slice()).ok()?;
    let items = trace_text::read(alloc, text.as_str()).ok()?;
    let mut checker = checker_of(alloc, trace.atomic.text())?;
    feed(&mut checker, &items)?;
    Some(checker)
}

/// Decides whether an order of transactions is right, and the checker's order of events too.
fn is_serial_by(
    alloc: Global,
    checker: &Checker,
    events: &[Event],
    order: &[u64],
) -> Result<bool, AllocError> {
    let Some(numbers) = checker.serial()? else {
        return Ok(false);
    };
    let transactions = checker.counts().transactions;
    let is_right = is_serial(alloc, events, numbers.as_slice())?;
    Ok(is_right && is_order(events, transactions, order))
}

/// Returns the line of an atomic trace.
fn atomic_line(
    alloc: Global,
    checker: &Checker,
    events: &[Event],
    order: &[u64],
) -> Result<String, AllocError> {
    let counts = checker.counts();
    let live = checker.live();
    let how = if is_serial_by(alloc, checker, events, order)? {
        "serial"
    } else {
        "not serial"
    };
    format!(in alloc;
        "atomic events {} transactions {} live {live} {how}",
        counts.events, counts.transactions
    )
}

/// Returns the line of a trace with a cycle.
fn cycle_line(
    alloc: Global,
    checker: &Checker,
    events: &[Event],
    shown: Shown<'_>,
) -> Result<String, AllocError> {
    let counts = checker.counts();
    let first_at = shown.first_at;
    let head = if checker.serial()?.is_some() {
        "cycle with an order"
    } else {
        "cycle"
    };
    let tail = if is_shown(events, shown) {
        ""
    } else {
        " not shown"
    };
    format!(in alloc;
        "{head} at {first_at} events {} transactions {}{tail}",
        counts.events, counts.transactions
    )
}

/// Returns the line of a trace that a checker was fed.
fn line_of(alloc: Global, checker: &Checker, events: &[Event]) -> Result<String, AllocError> {
    match checker.verdict()? {
        Verdict::Atomic { order } => atomic_line(alloc, checker, events, order.as_slice()),
        Verdict::Cycle {
            first_at,
            transactions,
            pairs,
        } => {
            let shown = Shown {
                first_at,
                transactions: transactions.as_slice(),
                pairs: pairs.as_slice(),
            };
            cycle_line(alloc, checker, events, shown)
        }
    }
}

/// Returns the line of the trace that the next random words yield.
fn next_line(alloc: Global, words: &mut Lcg64Xsh32) -> Option<String> {
    let trace = any_trace(alloc, words).ok()?;
    let events = events_of(alloc, &trace).ok()?;
    let checker = fed(alloc, &trace)?;
    line_of(alloc, &checker, events.as_slice()).ok()
}

/// Returns a checker that was fed many writes of one thread, in no method.
fn fed_writes(alloc: Global) -> Option<Checker> {
    let write = trace_text::read(alloc, "wr 1 C.x.I\n").ok()?;
    let mut checker = checker_of(alloc, "plain *\n")?;
    for _ in 0..WRITES {
        feed(&mut checker, &write)?;
    }
    Some(checker)
}

/// Returns the line of many writes of one thread.
fn writes_line(alloc: Global) -> Option<String> {
    let checker = fed_writes(alloc)?;
    let events = checker.counts().events;
    let live = checker.live();
    format!(in alloc; "{events} writes live {live}").ok()
}

/// Prints a line, or that there is none.
fn put(rt: &HostRuntime, line: Option<String>) -> io::Result<()> {
    match line {
        Some(line) => println!(rt; "{}", line.as_str()),
        None => println!(rt; "no verdict"),
    }
}

fn main(rt: HostRuntime) -> io::Result<()> {
    let mut words = Lcg64Xsh32::new(SEED, STREAM);
    for _ in 0..TRACES {
        let line = next_line(rt.alloc(), &mut words);
        put(&rt, line)?;
    }
    put(&rt, writes_line(rt.alloc()))
}
