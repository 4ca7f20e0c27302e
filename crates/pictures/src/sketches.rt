//! The parts of a trace and its verdict that a picture shows.

ghost use Rattle.std.specs.Prelude.{◌≡◌, IfOk, take};
ghost use Rattle.pictures.specs.Sketches.{IsSketch, cycle_length, cycle_of, edges_of};

use crate::rows::{Row, chosen_rows, rows_of};
use atom_graph::Checker;
use report::first;
use std::alloc::{AllocError, Global};
use velodrome::verdict::{ConflictingPair, Verdict};

/// The maximum number of edges of a cycle that a picture shows.
const MOST_EDGES: usize = 64;

/// The contents of a picture.
#[derive(Debug, Drop)]
pub struct Sketch {
    /// The events that are shown, in order.
    pub rows: Vec<Row>,
    /// The number of events of the trace.
    pub events: usize,
    /// The number of transactions of the cycle, or 0 if there is no cycle.
    pub transactions: usize,
    /// The transactions that the edges join. It is empty if there is no cycle.
    pub cycle: Vec<u64>,
    /// The first edges of the cycle, each by its two events.
    pub edges: Vec<ConflictingPair>,
}

/// Returns the number of transactions of a verdict's cycle.
fn cycle_length(verdict: &Verdict) -> usize
    ensures { result ≡ cycle_length verdict.now }
{
    match verdict {
        Verdict::Atomic { .. } => 0,
        Verdict::Cycle { transactions, .. } => transactions.as_slice().len(),
    }
}

/// Returns the transactions of a verdict's cycle that the first edges join.
fn cycle_of(alloc: Global, verdict: &Verdict) -> Result<Vec<u64>, AllocError>
    ensures { IfOk result (λ v. v.items ≡ cycle_of verdict.now) }
{
    match verdict {
        Verdict::Atomic { .. } => Ok(Vec::new(alloc)),
        Verdict::Cycle { transactions, .. } => Vec::from_slice(
            alloc,
            first(transactions.as_slice(), MOST_EDGES + 1),
        ),
    }
}

/// Returns the first edges of a verdict's cycle.
fn edges_of(alloc: Global, verdict: &Verdict) -> Result<Vec<ConflictingPair>, AllocError>
    ensures { IfOk result (λ v. v.items ≡ edges_of verdict.now) }
{
    match verdict {
        Verdict::Atomic { .. } => Ok(Vec::new(alloc)),
        Verdict::Cycle { pairs, .. } => Vec::from_slice(alloc, first(pairs.as_slice(), MOST_EDGES)),
    }
}

/// Returns the contents of a picture of the items that a checker was fed, and of its verdict. It has the first 64 edges
/// of the cycle, the transactions that they join, and at most 200 events. If there are more events, only those of these
/// transactions are shown. If these are still more, only those that the edges join are shown.
pub fn sketch_of(alloc: Global, checker: &Checker, verdict: &Verdict) -> Result<Sketch, AllocError>
    ensures { IfOk result (IsSketch checker.now verdict.now) }
{
    let cycle = cycle_of(alloc, verdict)?;
    let edges = edges_of(alloc, verdict)?;
    let rows = rows_of(alloc, checker.items(), checker.transactions())?;
    let events = rows.len();
    Ok(Sketch {
        rows: chosen_rows(alloc, rows, cycle.as_slice(), edges.as_slice())?,
        events,
        transactions: cycle_length(verdict),
        cycle,
        edges,
    })
}
