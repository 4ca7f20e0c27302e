//! A sketch as SVG 1.1: a column for each thread, time downwards, a box for each transaction, and arrows.

use crate::escaped::put_short;
use crate::labels::{item_label, transaction_label};
use crate::layout::{BESIDE_DOT, Layout, MARGIN, TOP, layout_of, y_of};
use crate::sketches::Sketch;
use crate::titles::title_of;
use atom_graph::Checker;
use std::alloc::{AllocError, Global};

/// The heads of arrows, one for each colour, and the classes. `t` is a thread's name and `l` its line, `b` a box, `c`
/// one of the cycle and `n` its name, `i` an event's number, `a` an arrow of a conflict and `e` one of an edge.
const STYLES: &str = "\
<defs>
<marker id=\"grey\" viewBox=\"0 0 8 8\" refX=\"8\" refY=\"4\" markerWidth=\"8\" markerHeight=\"8\" \
markerUnits=\"userSpaceOnUse\" orient=\"auto\"><path fill=\"#8a94a3\" d=\"M0 1L8 4L0 7z\"/></marker>
<marker id=\"red\" viewBox=\"0 0 8 8\" refX=\"8\" refY=\"4\" markerWidth=\"10\" markerHeight=\"10\" \
markerUnits=\"userSpaceOnUse\" orient=\"auto\"><path fill=\"#c0392b\" d=\"M0 1L8 4L0 7z\"/></marker>
</defs>
<style type=\"text/css\">text{font:11px monospace}.t{font-weight:bold}.b{fill:#f3f6fb;stroke:#8fa3bf}\
.c{fill:#fdeeee;stroke:#c0392b}.n{fill:#5a6b80}.l{stroke:#e3e6ea}.i{fill:#5a6b80;text-anchor:end}.a,.e{fill:none}\
.a{stroke:#8a94a3;marker-end:url(#grey)}.e{stroke:#c0392b;stroke-width:2;marker-end:url(#red)}</style>
";

/// Appends the start of the picture, its title for screen readers, and its styles.
fn put_start(
    alloc: Global,
    out: &mut String,
    layout: &Layout<'_>,
    title: &str,
) -> Result<(), AllocError> {
    let (width, height) = (layout.width(), layout.height());
    let start = format!(in alloc;
        "<svg xmlns=\"http://www.w3.org/2000/svg\" version=\"1.1\" width=\"{width}\" height=\"{height}\" viewBox=\"0 0 {width} {height}\">\n<title>{title}</title>\n"
    )?;
    out.push_str(start.as_str())?;
    out.push_str(STYLES)
}

/// Appends the lines of the threads, and their names.
fn put_columns(alloc: Global, out: &mut String, layout: &Layout<'_>) -> Result<(), AllocError> {
    let bottom = y_of(layout.rows.len());
    for thread in layout.threads.as_slice() {
        let x = layout.dots_of(*thread);
        let line = format!(in alloc;
            "<path class=\"l\" d=\"M{x} {TOP}V{bottom}\"/>\n<text class=\"t\" x=\"{x}\" y=\"40\">thread {thread}</text>\n"
        )?;
        out.push_str(line.as_str())?;
    }
    Ok(())
}

/// Returns the last row of a transaction if a row is its first.
fn last_if_first(layout: &Layout<'_>, place: usize, transaction: u64) -> Option<usize> {
    let first = layout
        .rows
        .iter()
        .position(|row| row.transaction == transaction)?;
    if first != place {
        return None;
    }
    layout
        .rows
        .iter()
        .rposition(|row| row.transaction == transaction)
}

/// Appends the box of the transaction that begins with a row, and its name.
fn put_box(
    alloc: Global,
    out: &mut String,
    layout: &Layout<'_>,
    place: usize,
) -> Result<(), AllocError> {
    let (Some(row), Some(left), Some(dot)) = (
        layout.rows.get(place),
        layout.left_end(place),
        layout.dot(place),
    ) else {
        return Ok(());
    };
    let Some(last) = last_if_first(layout, place, row.transaction) else {
        return Ok(());
    };
    let is_red = layout.cycle.contains(&row.transaction);
    let class = if is_red { "c" } else { "b" };
    let start = format!(in alloc;
        "<rect class=\"{class}\" x=\"{left}\" y=\"{top}\" width=\"{width}\" height=\"{height}\" rx=\"5\"/>\n<text class=\"n\" x=\"{x}\" y=\"{y}\">",
        left = left.x,
        top = dot.y.saturating_sub(24),
        width = layout.column_width(),
        height = y_of(last).saturating_sub(dot.y).saturating_add(32),
        x = dot.x,
        y = dot.y.saturating_sub(12)
    )?;
    out.push_str(start.as_str())?;
    let label = transaction_label(alloc, layout.checker, row.transaction, row.place)?;
    put_short(out, label.as_str())?;
    out.push_str("</text>\n")
}

/// Appends an event: its dot, its number to the left and its line of the trace to the right.
fn put_event(
    alloc: Global,
    out: &mut String,
    layout: &Layout<'_>,
    place: usize,
) -> Result<(), AllocError> {
    let (Some(row), Some(dot)) = (layout.rows.get(place), layout.dot(place)) else {
        return Ok(());
    };
    let text = dot.y.saturating_add(4);
    let start = format!(in alloc;
        "<circle cx=\"{x}\" cy=\"{y}\" r=\"3\"/>\n<text class=\"i\" x=\"{left}\" y=\"{text}\">{event}</text>\n<text x=\"{right}\" y=\"{text}\">",
        x = dot.x,
        y = dot.y,
        left = dot.x.saturating_sub(BESIDE_DOT),
        event = row.event,
        right = dot.x.saturating_add(BESIDE_DOT)
    )?;
    out.push_str(start.as_str())?;
    let line = item_label(alloc, layout.checker, row.place)?;
    put_short(out, line.as_str())?;
    out.push_str("</text>\n")
}

/// Appends the number of the trace's events that aren't shown, if there are any.
fn put_rest(
    alloc: Global,
    out: &mut String,
    layout: &Layout<'_>,
    events: usize,
) -> Result<(), AllocError> {
    let hidden = events.saturating_sub(layout.rows.len());
    if hidden == 0 {
        return Ok(());
    }
    let y = y_of(layout.rows.len());
    let note = format!(in alloc;
        "<text x=\"{MARGIN}\" y=\"{y}\">and {hidden} more events</text>\n"
    )?;
    out.push_str(note.as_str())
}

/// Appends the parts of a picture, the later ones over the earlier ones.
fn put_parts(alloc: Global, out: &mut String, layout: &Layout<'_>) -> Result<(), AllocError> {
    put_columns(alloc, out, layout)?;
    for place in 0..layout.rows.len() {
        put_box(alloc, out, layout, place)?;
    }
    layout.put_arrows(alloc, out)?;
    for place in 0..layout.rows.len() {
        put_event(alloc, out, layout, place)?;
    }
    Ok(())
}

/// Returns a sketch as SVG, with the number of events that aren't shown. Its size is bounded.
pub fn svg(alloc: Global, checker: &Checker, sketch: &Sketch) -> Result<String, AllocError> {
    let title = title_of(alloc, checker, sketch)?;
    let layout = layout_of(alloc, checker, sketch)?;
    let mut out = String::new(alloc);
    put_start(alloc, &mut out, &layout, title.as_str())?;
    put_parts(alloc, &mut out, &layout)?;
    put_rest(alloc, &mut out, &layout, sketch.events)?;
    out.push_str("</svg>\n")?;
    drop(layout);
    Ok(out)
}
