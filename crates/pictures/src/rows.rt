//! The rows of a picture, one for each event.

ghost use Rattle.std.specs.Prelude.{◌≡◌, ◌+◌, IfOk};
ghost use Rattle.pictures.specs.Rows.{chosen_rows, is_chosen, is_joined, rows_from, thinned_rows};

use jvms_machine::trace::Item;
use report::is_event;
use shared_data::shared::Shared;
use std::alloc::{AllocError, Global};
use velodrome::verdict::ConflictingPair;

/// The maximum number of events that a picture shows.
const MOST_ROWS: usize = 200;

/// An event of a picture.
#[derive(Clone, Copy, Debug)]
pub struct Row {
    /// The event's number, from 1.
    pub event: u64,
    /// The place of its item, from 0.
    pub place: usize,
    /// The number of its transaction.
    pub transaction: u64,
}

/// Returns the next number. Fails if there is none.
fn number_after(number: u64) -> Result<u64, AllocError>
    ensures { IfOk result (λ next. next ≡ number + 1) }
{
    number.checked_add(1).ok_or(AllocError)
}

/// Returns the events among items. `transactions` has the transaction of each.
pub(crate) fn rows_of(
    alloc: Global,
    items: &[Shared<Item>],
    transactions: &[u64],
) -> Result<Vec<Row>, AllocError>
    ensures { IfOk result (λ rows. rows.items ≡ rows_from 1 0 items.now transactions.now) }
{
    let mut rows = Vec::new(alloc);
    let mut event = 1u64;
    let mut rest = transactions;
    for (place, item) in items.iter().enumerate() {
        if is_event(item.get()) {
            let Some((transaction, others)) = rest.split_first() else {
                return Ok(rows);
            };
            let transaction = *transaction;
            rows.push(Row {
                event,
                place,
                transaction,
            })?;
            event = number_after(event)?;
            rest = others;
        }
    }
    Ok(rows)
}

/// Returns whether the transaction of a row is one of these.
fn is_chosen(cycle: &[u64], row: &Row) -> bool
    ensures { result ≡ is_chosen cycle.now row.now }
{
    cycle.contains(&row.transaction)
}

/// Returns whether an edge joins the event of a row.
fn is_joined(edges: &[ConflictingPair], row: &Row) -> bool
    ensures { result ≡ is_joined edges.now row.now }
{
    edges.iter().any(|edge| edge.earlier == row.event || edge.later == row.event)
}

/// Returns the rows of a cycle's transactions, or all rows if they are few.
fn thinned_by_cycle(alloc: Global, rows: Vec<Row>, cycle: &[u64]) -> Result<Vec<Row>, AllocError>
    ensures { IfOk result (λ chosen. chosen.items ≡ thinned_rows (is_chosen cycle.now) rows.items) }
{
    let mut chosen = rows;
    if chosen.len() > MOST_ROWS {
        chosen = chosen
            .iter()
            .copied()
            .filter(|row| is_chosen(cycle, row))
            .collect(alloc)?;
    }
    Ok(chosen)
}

/// Returns the rows of the events that edges join, or all rows if they are few.
fn thinned_by_edges(
    alloc: Global,
    rows: Vec<Row>,
    edges: &[ConflictingPair],
) -> Result<Vec<Row>, AllocError>
    ensures { IfOk result (λ chosen. chosen.items ≡ thinned_rows (is_joined edges.now) rows.items) }
{
    let mut chosen = rows;
    if chosen.len() > MOST_ROWS {
        chosen = chosen
            .iter()
            .copied()
            .filter(|row| is_joined(edges, row))
            .collect(alloc)?;
    }
    Ok(chosen)
}

/// Returns the rows that a picture shows, at most 200. If there are more, only those of the cycle are shown. If these
/// are still more, only those that its edges join are shown. Without a cycle the first ones are shown.
pub(crate) fn chosen_rows(
    alloc: Global,
    rows: Vec<Row>,
    cycle: &[u64],
    edges: &[ConflictingPair],
) -> Result<Vec<Row>, AllocError>
    ensures { IfOk result (λ chosen. chosen.items ≡ chosen_rows cycle.now edges.now rows.items) }
{
    let mut chosen = rows;
    if !cycle.is_empty() {
        chosen = thinned_by_cycle(alloc, chosen, cycle)?;
        chosen = thinned_by_edges(alloc, chosen, edges)?;
    }
    chosen.truncate(MOST_ROWS);
    Ok(chosen)
}

/// Returns the place of an event's row among rows, if it is one of them.
pub(crate) fn place_of(rows: &[Row], event: u64) -> Option<usize> {
    rows.iter().position(|row| row.event == event)
}
