//! Writes the lines that explain a cycle.

ghost use Rattle.std.specs.Prelude.{◌≡◌, ◌++◌, ◌-◌, ◌<◌, IfOk, OnOk, Some, length, take};
ghost use Rattle.std.specs.List.{flat_map};
ghost use Rattle.std.specs.String.{string_bytes};
ghost use Rattle.report.specs.CycleTexts.{all_edge_lines, cycle_lines, edge_at, edge_lines, explanation, most_explained, last_text, next_in, rest_line, span_of, transaction_line, transaction_lines};

use crate::events::first;
use crate::fed_trace::FedTrace;
use atom_graph::Checker;
use escapes::{put_counted, put_number};
use std::alloc::{AllocError, Global};
use velodrome::verdict::{ConflictingPair, Verdict};

/// The maximum number of transactions and edges that are explained.
const MOST_EXPLAINED: usize = 64;

/// Appends the last of a transaction's events, unless it is also the first.
fn put_last(out: &mut String, trace: &FedTrace<'_>, first: u64, last: u64) -> Result<(), AllocError>
    ensures { OnOk result (string_bytes out.new
        ≡ string_bytes out.old ++ last_text trace.now.turns first (Some last)) }
{
    if last == first {
        return Ok(());
    }
    out.push_str(" to ")?;
    trace.put_event_name(out, last)
}

/// Appends the thread and method of a transaction, with the first and the last of its events.
fn put_span(
    alloc: Global,
    out: &mut String,
    trace: &FedTrace<'_>,
    numbers: &[u64],
) -> Result<(), AllocError>
    ensures { OnOk result
        (string_bytes out.new ≡ string_bytes out.old ++ span_of trace.now numbers.now) }
{
    let (Some(first), Some(last)) = (numbers.first(), numbers.last()) else {
        return Ok(());
    };
    trace.put_actor_of(alloc, out, *first)?;
    out.push_str(", ")?;
    trace.put_event_name(out, *first)?;
    put_last(out, trace, *first, *last)
}

/// Appends the line of a transaction.
fn put_transaction(
    alloc: Global,
    out: &mut String,
    trace: &FedTrace<'_>,
    transaction: u64,
) -> Result<(), AllocError>
    ensures { OnOk result
        (string_bytes out.new ≡ string_bytes out.old ++ transaction_line trace.now transaction) }
{
    let numbers = trace.numbers_of(alloc, transaction)?;
    put_counted(out, "transaction ", transaction)?;
    put_span(alloc, out, trace, numbers.as_slice())?;
    out.push_str("\n")
}

/// Appends the lines of transactions.
fn put_transactions(
    alloc: Global,
    out: &mut String,
    trace: &FedTrace<'_>,
    transactions: &[u64],
) -> Result<(), AllocError>
    ensures { OnOk result (string_bytes out.new
        ≡ string_bytes out.old ++ flat_map (transaction_line trace.now) transactions.now) }
{
    for transaction in transactions {
        put_transaction(alloc, out, trace, *transaction)?;
    }
    Ok(())
}

/// Appends the lines of an edge: its transactions and its two events.
fn put_edge(
    out: &mut String,
    trace: &FedTrace<'_>,
    from: u64,
    to: u64,
    pair: ConflictingPair,
) -> Result<(), AllocError>
    ensures { OnOk result
        (string_bytes out.new ≡ string_bytes out.old ++ edge_lines trace.now from to pair) }
{
    put_number(out, from)?;
    put_counted(out, " before ", to)?;
    out.push_str("\n")?;
    trace.put_event_line(out, pair.earlier)?;
    trace.put_event_line(out, pair.later)
}

/// Returns the transaction after the one at a place of a cycle. The first follows the last.
fn next_in(transactions: &[u64], place: usize) -> Option<u64>
    requires { place < length transactions.now }
    ensures { result ≡ next_in transactions.now place }
{
    match transactions.get(place + 1) {
        Some(next) => Some(*next),
        None => transactions.first().copied(),
    }
}

/// Appends the lines of the edge from the transaction at a place of a cycle.
fn put_edge_at(
    out: &mut String,
    trace: &FedTrace<'_>,
    transactions: &[u64],
    pairs: &[ConflictingPair],
    place: usize,
) -> Result<(), AllocError>
    requires { place < length transactions.now }
    ensures { OnOk result (string_bytes out.new
        ≡ string_bytes out.old ++ edge_at trace.now transactions.now pairs.now place) }
{
    let Some(to) = next_in(transactions, place) else {
        return Ok(());
    };
    match pairs.get(place) {
        Some(pair) => put_edge(out, trace, transactions[place], to, *pair),
        None => Ok(()),
    }
}

/// Appends the lines of the edges of a cycle, up to the maximum.
fn put_edges(
    out: &mut String,
    trace: &FedTrace<'_>,
    transactions: &[u64],
    pairs: &[ConflictingPair],
) -> Result<(), AllocError>
    ensures { OnOk result (string_bytes out.new
        ≡ string_bytes out.old ++ all_edge_lines trace.now transactions.now pairs.now) }
{
    for place in 0..transactions.len().min(MOST_EXPLAINED) {
        put_edge_at(out, trace, transactions, pairs, place)?;
    }
    Ok(())
}

/// Appends the number of transactions that aren't explained, if there are any.
fn put_rest(out: &mut String, count: usize) -> Result<(), AllocError>
    ensures { OnOk result
        (string_bytes out.new ≡ string_bytes out.old ++ rest_line (count - most_explained)) }
{
    if count <= MOST_EXPLAINED {
        return Ok(());
    }
    put_counted(out, "and ", (count - MOST_EXPLAINED) as u64)?;
    out.push_str(" more transactions\n")?;
    Ok(())
}

/// Appends the lines of a cycle.
fn put_cycle(
    alloc: Global,
    out: &mut String,
    trace: &FedTrace<'_>,
    transactions: &[u64],
    pairs: &[ConflictingPair],
) -> Result<(), AllocError>
    ensures { OnOk result (string_bytes out.new
        ≡ string_bytes out.old ++ cycle_lines trace.now transactions.now pairs.now) }
{
    put_transactions(alloc, out, trace, first(transactions, MOST_EXPLAINED))?;
    put_edges(out, trace, transactions, pairs)?;
    put_rest(out, transactions.len())
}

/// Explains the cycle of a verdict on the items that a checker was fed. For each transaction of the cycle a line has
/// its thread, the method that names it, and its first and last event. For each edge the lines have its two conflicting
/// events, with their lines of the trace. At most 64 transactions and edges are explained. The text is empty if there
/// is no cycle.
///
/// `turns` has the turn of each event, from 1. It is empty if they are unknown.
pub fn explain(
    alloc: Global,
    checker: &Checker,
    turns: &[u64],
    verdict: &Verdict,
) -> Result<String, AllocError>
    ensures { IfOk result (λ text. string_bytes text ≡ explanation (record {
      lines = checker.now.lines;
      items = checker.now.items;
      turns = turns.now;
    }) verdict.now) }
{
    let mut text = String::new(alloc);
    if let Verdict::Cycle {
        transactions,
        pairs,
        ..
    } = verdict
    {
        let trace = FedTrace::new(alloc, checker, turns)?;
        put_cycle(
            alloc,
            &mut text,
            &trace,
            transactions.as_slice(),
            pairs.as_slice(),
        )?;
    }
    Ok(text)
}
