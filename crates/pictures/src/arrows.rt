//! The arrows of a picture: grey ones between conflicting events, and a red one for each edge of the cycle.

use crate::conflicts::are_conflicting;
use crate::layout::{Layout, Point, thread_at};
use crate::rows::place_of;
use std::alloc::{AllocError, Global};

/// The least bend of an arrow.
const BEND: usize = 12;

/// The additional bend of an arrow for each edge before it.
const BEND_FOR_EDGE: usize = 2;

/// The greatest additional bend of an arrow within a column, for its length.
const BEND_FOR_LENGTH: usize = 48;

/// An arrow: it starts in the direction of `towards`, and ends as if it came from there.
#[derive(Clone, Copy)]
struct Arrow {
    from: Point,
    towards: Point,
    to: Point,
}

/// Returns the arrow within a column, bent to the left. A longer one is bent more.
fn arrow_down(from: Point, to: Point, bend: usize) -> Arrow {
    let length = to.y.saturating_sub(from.y);
    let bend = bend.saturating_add((length / 4).min(BEND_FOR_LENGTH));
    let towards = Point {
        x: from.x.saturating_sub(bend),
        y: from.y.saturating_add(length / 2),
    };
    Arrow { from, towards, to }
}

/// Returns the arrow from a column to another one, bent downwards if it leads to the right, else upwards.
fn arrow_across(from: Point, to: Point, bend: usize) -> Arrow {
    let x = from.x.saturating_add(to.x) / 2;
    let y = from.y.saturating_add(to.y) / 2;
    let towards = Point {
        x: x.saturating_sub(bend),
        y: if from.x < to.x {
            y.saturating_add(bend)
        } else {
            y.saturating_sub(bend)
        },
    };
    Arrow { from, towards, to }
}

/// Returns the arrow between two ends of rows. A higher number of its edge bends it more.
fn arrow_between(from: Point, to: Point, edge: usize) -> Arrow {
    let bend = edge.saturating_mul(BEND_FOR_EDGE).saturating_add(BEND);
    if from.x == to.x {
        arrow_down(from, to, bend)
    } else {
        arrow_across(from, to, bend)
    }
}

/// Appends an arrow.
fn put_path(alloc: Global, out: &mut String, class: &str, arrow: Arrow) -> Result<(), AllocError> {
    let Arrow { from, towards, to } = arrow;
    let line = format!(in alloc;
        "<path class=\"{class}\" d=\"M{from_x} {from_y}Q{x} {y} {to_x} {to_y}\"/>\n",
        from_x = from.x,
        from_y = from.y,
        x = towards.x,
        y = towards.y,
        to_x = to.x,
        to_y = to.y
    )?;
    out.push_str(line.as_str())
}

impl Layout<'_> {
    /// Returns the two ends of an arrow from one row to another. It covers neither a number nor a text of the two rows:
    /// it joins the sides that face each other, or the left sides within a column.
    fn ends(
        &self,
        alloc: Global,
        from: usize,
        to: usize,
    ) -> Result<Option<(Point, Point)>, AllocError> {
        let (Some(start), Some(end)) = (self.left_end(from), self.left_end(to)) else {
            return Ok(None);
        };
        if start.x < end.x {
            let right = self.right_end(alloc, from)?;
            return Ok(right.map(|start| (start, end)));
        }
        if end.x < start.x {
            let right = self.right_end(alloc, to)?;
            return Ok(right.map(|end| (start, end)));
        }
        Ok(Some((start, end)))
    }

    /// Appends the arrow from one row to another. `edge` is the number of its edge, from 0.
    fn put_arrow(
        &self,
        alloc: Global,
        out: &mut String,
        class: &str,
        from: usize,
        to: usize,
        edge: usize,
    ) -> Result<(), AllocError> {
        match self.ends(alloc, from, to)? {
            Some((from, to)) => put_path(alloc, out, class, arrow_between(from, to, edge)),
            None => Ok(()),
        }
    }

    /// Returns the last row before one with an event of another thread that conflicts with its event.
    fn last_conflicting(&self, place: usize) -> Option<usize> {
        let row = self.rows.get(place)?;
        let thread = thread_at(self.checker, row);
        let before = self.rows.get(..place)?;
        before.iter().rposition(|earlier| {
            thread_at(self.checker, earlier) != thread
                && are_conflicting(self.checker, earlier, row)
        })
    }

    /// Returns whether an event between two rows, of the later one's thread, conflicts with the earlier one's event.
    fn is_implied(&self, from: usize, place: usize) -> bool {
        let (Some(first), Some(last)) = (self.rows.get(from), self.rows.get(place)) else {
            return false;
        };
        let thread = thread_at(self.checker, last);
        let Some(between) = self.rows.get(from.saturating_add(1)..place) else {
            return false;
        };
        between.iter().any(|row| {
            thread_at(self.checker, row) == thread && are_conflicting(self.checker, first, row)
        })
    }

    /// Returns whether an edge of the cycle joins the events of two rows.
    fn is_edge(&self, from: usize, place: usize) -> bool {
        let (Some(first), Some(last)) = (self.rows.get(from), self.rows.get(place)) else {
            return false;
        };
        self.edges.iter().any(|edge| edge.earlier == first.event && edge.later == last.event)
    }

    /// Returns the row from which a grey arrow leads to another one: the last row before it that conflicts with it and
    /// is of another thread. Returns `None` if an event between the two, of the later one's thread, conflicts with the
    /// earlier one. Returns `None` also if a red arrow joins the two.
    fn conflicting(&self, place: usize) -> Option<usize> {
        let from = self.last_conflicting(place)?;
        if self.is_implied(from, place) || self.is_edge(from, place) {
            return None;
        }
        Some(from)
    }

    /// Appends the arrows of conflicting events.
    fn put_grey_arrows(&self, alloc: Global, out: &mut String) -> Result<(), AllocError> {
        for place in 0..self.rows.len() {
            if let Some(from) = self.conflicting(place) {
                self.put_arrow(alloc, out, "a", from, place, 0)?;
            }
        }
        Ok(())
    }

    /// Appends the arrows of the cycle's edges.
    fn put_red_arrows(&self, alloc: Global, out: &mut String) -> Result<(), AllocError> {
        for (number, edge) in self.edges.iter().enumerate() {
            let (from, to) = (
                place_of(self.rows, edge.earlier),
                place_of(self.rows, edge.later),
            );
            if let (Some(from), Some(to)) = (from, to) {
                self.put_arrow(alloc, out, "e", from, to, number)?;
            }
        }
        Ok(())
    }

    /// Appends all arrows, the red ones over the grey ones.
    pub(crate) fn put_arrows(&self, alloc: Global, out: &mut String) -> Result<(), AllocError> {
        self.put_grey_arrows(alloc, out)?;
        self.put_red_arrows(alloc, out)
    }
}
