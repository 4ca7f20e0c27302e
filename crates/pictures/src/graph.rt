//! A sketch as a graph of transactions in DOT, as Graphviz reads it.

use crate::conflicts::are_conflicting;
use crate::escaped::put_quoted;
use crate::labels::{event_label, transaction_label};
use crate::rows::{Row, place_of};
use crate::sketches::Sketch;
use crate::titles::title_of;
use atom_graph::Checker;
use std::alloc::{AllocError, Global};
use velodrome::verdict::ConflictingPair;

/// Appends the start of the graph: its title, and the shape of its nodes.
fn put_start(alloc: Global, out: &mut String, title: &str) -> Result<(), AllocError> {
    let start = format!(in alloc;
        "strict digraph transactions {{\n  label=\"{title}\";\n  labelloc=t;\n  node [shape=box];\n"
    )?;
    out.push_str(start.as_str())
}

/// Returns whether a row is the first of its transaction.
fn is_first(rows: &[Row], place: usize, row: &Row) -> bool {
    match rows
        .iter()
        .position(|other| other.transaction == row.transaction)
    {
        Some(first) => first == place,
        None => false,
    }
}

/// Appends the node of a transaction whose first row is this one.
fn put_node(
    alloc: Global,
    out: &mut String,
    checker: &Checker,
    sketch: &Sketch,
    row: &Row,
) -> Result<(), AllocError> {
    let transaction = row.transaction;
    let start = format!(in alloc; "  t{transaction} [label=\"")?;
    out.push_str(start.as_str())?;
    let label = transaction_label(alloc, checker, transaction, row.place)?;
    put_quoted(out, label.as_str())?;
    let is_red = sketch.cycle.as_slice().contains(&transaction);
    out.push_str(if is_red {
        "\", color=red];\n"
    } else {
        "\"];\n"
    })
}

/// Returns whether an event conflicts with a later one of another transaction.
fn leads(checker: &Checker, from: &Row, to: &Row) -> bool {
    from.transaction != to.transaction && are_conflicting(checker, from, to)
}

/// Appends the edge into a row's transaction from the last row before it that conflicts with it.
fn put_edge(
    alloc: Global,
    out: &mut String,
    checker: &Checker,
    rows: &[Row],
    place: usize,
) -> Result<(), AllocError> {
    let (Some(row), Some(before)) = (rows.get(place), rows.get(..place)) else {
        return Ok(());
    };
    let Some(from) = before
        .iter()
        .rposition(|earlier| leads(checker, earlier, row))
    else {
        return Ok(());
    };
    let Some(earlier) = rows.get(from) else {
        return Ok(());
    };
    let (from, to) = (earlier.transaction, row.transaction);
    let line = format!(in alloc; "  t{from} -> t{to};\n")?;
    out.push_str(line.as_str())
}

/// Returns the row of an event, if it is shown.
fn row_of(rows: &[Row], event: u64) -> Option<&Row> {
    rows.get(place_of(rows, event)?)
}

/// Appends the number of a row's event, and its line.
fn put_event(
    alloc: Global,
    out: &mut String,
    checker: &Checker,
    row: &Row,
) -> Result<(), AllocError> {
    let label = event_label(alloc, checker, row)?;
    put_quoted(out, label.as_str())
}

/// Appends an edge of the cycle, with its two events as its label.
fn put_cycle_edge(
    alloc: Global,
    out: &mut String,
    checker: &Checker,
    rows: &[Row],
    edge: ConflictingPair,
) -> Result<(), AllocError> {
    let (Some(earlier), Some(later)) = (row_of(rows, edge.earlier), row_of(rows, edge.later)) else {
        return Ok(());
    };
    let (from, to) = (earlier.transaction, later.transaction);
    let start = format!(in alloc; "  t{from} -> t{to} [label=\"")?;
    out.push_str(start.as_str())?;
    put_event(alloc, out, checker, earlier)?;
    out.push_str("\\n")?;
    put_event(alloc, out, checker, later)?;
    out.push_str("\", color=red, penwidth=2];\n")
}

/// Appends the nodes: one for each transaction that is shown.
fn put_nodes(
    alloc: Global,
    out: &mut String,
    checker: &Checker,
    sketch: &Sketch,
) -> Result<(), AllocError> {
    let rows = sketch.rows.as_slice();
    for (place, row) in rows.iter().enumerate() {
        if is_first(rows, place, row) {
            put_node(alloc, out, checker, sketch, row)?;
        }
    }
    Ok(())
}

/// Appends the edges, those of the cycle last.
fn put_edges(
    alloc: Global,
    out: &mut String,
    checker: &Checker,
    sketch: &Sketch,
) -> Result<(), AllocError> {
    let rows = sketch.rows.as_slice();
    for place in 0..rows.len() {
        put_edge(alloc, out, checker, rows, place)?;
    }
    for edge in sketch.edges.as_slice() {
        put_cycle_edge(alloc, out, checker, rows, *edge)?;
    }
    Ok(())
}

/// Returns a sketch as a graph in DOT. A node is a transaction that is shown. An edge leads into each event's
/// transaction from that of the last event that conflicts with it. The edges of the cycle are red and have their two
/// events as a label. `strict` merges equal edges, with the attributes of the last.
pub fn dot(alloc: Global, checker: &Checker, sketch: &Sketch) -> Result<String, AllocError> {
    let title = title_of(alloc, checker, sketch)?;
    let mut out = String::new(alloc);
    put_start(alloc, &mut out, title.as_str())?;
    put_nodes(alloc, &mut out, checker, sketch)?;
    put_edges(alloc, &mut out, checker, sketch)?;
    out.push_str("}\n")?;
    Ok(out)
}
