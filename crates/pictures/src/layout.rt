//! The positions of the parts of a picture, in pixels. A thread has a column, and an event a row. In its column a row
//! has, from the left, the event's number, its dot and its text.

use crate::escaped::shown_length;
use crate::labels::{item_at, item_label};
use crate::rows::Row;
use crate::sketches::Sketch;
use accesses::thread_of;
use atom_graph::Checker;
use jvms_machine::machine::ThreadId;
use std::alloc::{AllocError, Global};
use velodrome::verdict::ConflictingPair;

/// The free space left of the first column.
pub(crate) const MARGIN: usize = 60;

/// The free space above the first row.
pub(crate) const TOP: usize = 60;

/// The height of a row.
pub(crate) const ROW: usize = 34;

/// The free space between two columns.
const GAP: usize = 44;

/// The width of a text, with the dot.
const TEXT: usize = 256;

/// The free space between a dot's middle and the texts at its sides.
pub(crate) const BESIDE_DOT: usize = 8;

/// The free space between a text and an arrow.
const BESIDE_TEXT: usize = 4;

/// The width of a digit.
const DIGIT: usize = 7;

/// The free space at the sides of a number, including the dot's side.
const BESIDE_NUMBER: usize = 14;

/// The width of three characters of a text.
const THREE_CHARACTERS: usize = 20;

/// A point of a picture, from its left and from its top.
#[derive(Clone, Copy)]
pub(crate) struct Point {
    pub(crate) x: usize,
    pub(crate) y: usize,
}

/// The positions of the parts of a picture.
#[derive(Drop)]
pub(crate) struct Layout<'a> {
    pub(crate) checker: &'a Checker,
    pub(crate) rows: &'a [Row],
    pub(crate) cycle: &'a [u64],
    pub(crate) edges: &'a [ConflictingPair],
    /// The threads of the rows, in ascending order.
    pub(crate) threads: Vec<ThreadId>,
    /// The width of the events' numbers.
    numbers: usize,
}

/// Returns the thread of a row.
pub(crate) fn thread_at(checker: &Checker, row: &Row) -> ThreadId {
    match item_at(checker, row.place) {
        Some(item) => thread_of(item),
        None => 0,
    }
}

/// Returns the threads of rows, in ascending order.
fn threads_of(alloc: Global, checker: &Checker, rows: &[Row]) -> Result<Vec<ThreadId>, AllocError> {
    let mut threads = Vec::new(alloc);
    for row in rows {
        let thread = thread_at(checker, row);
        let place = threads.as_slice().partition_point(|known| *known < thread);
        if threads.get(place).copied() != Some(thread) {
            threads.insert(place, thread)?;
        }
    }
    Ok(threads)
}

/// Returns the width of the numbers of rows. The last number is the greatest.
fn room_of_numbers(alloc: Global, rows: &[Row]) -> Result<usize, AllocError> {
    let greatest = match rows.last() {
        Some(row) => row.event,
        None => 0,
    };
    let number = format!(in alloc; "{greatest}")?;
    let width = number.len().saturating_mul(DIGIT);
    Ok(width.saturating_add(BESIDE_NUMBER))
}

/// Returns the layout of a sketch.
pub(crate) fn layout_of<'a>(
    alloc: Global,
    checker: &'a Checker,
    sketch: &'a Sketch,
) -> Result<Layout<'a>, AllocError> {
    let rows = sketch.rows.as_slice();
    let numbers = room_of_numbers(alloc, rows)?;
    Ok(Layout {
        checker,
        rows,
        cycle: sketch.cycle.as_slice(),
        edges: sketch.edges.as_slice(),
        threads: threads_of(alloc, checker, rows)?,
        numbers,
    })
}

/// Returns the vertical position of the middle of a row.
pub(crate) fn y_of(place: usize) -> usize {
    place.saturating_mul(ROW).saturating_add(TOP + ROW)
}

impl Layout<'_> {
    /// Returns the width of a column.
    pub(crate) fn column_width(&self) -> usize {
        self.numbers.saturating_add(TEXT)
    }

    /// Returns the horizontal position where a column begins. Columns are counted from 0.
    fn start_of(&self, column: usize) -> usize {
        let step = self.column_width().saturating_add(GAP);
        column.saturating_mul(step).saturating_add(MARGIN)
    }

    /// Returns the width of the picture. Without a thread it has the width of one column.
    pub(crate) fn width(&self) -> usize {
        self.start_of(self.threads.len().max(1))
    }

    /// Returns the height of the picture, with a row for a note.
    pub(crate) fn height(&self) -> usize {
        y_of(self.rows.len()).saturating_add(ROW)
    }

    /// Returns the horizontal position where the column of a thread begins.
    fn start_of_thread(&self, thread: ThreadId) -> usize {
        let column = self
            .threads
            .as_slice()
            .partition_point(|known| *known < thread);
        self.start_of(column)
    }

    /// Returns the horizontal position of the dots of a thread.
    pub(crate) fn dots_of(&self, thread: ThreadId) -> usize {
        self.start_of_thread(thread).saturating_add(self.numbers)
    }

    /// Returns the left end of a row.
    pub(crate) fn left_end(&self, place: usize) -> Option<Point> {
        let row = self.rows.get(place)?;
        Some(Point {
            x: self.start_of_thread(thread_at(self.checker, row)),
            y: y_of(place),
        })
    }

    /// Returns the dot of a row.
    pub(crate) fn dot(&self, place: usize) -> Option<Point> {
        let row = self.rows.get(place)?;
        Some(Point {
            x: self.dots_of(thread_at(self.checker, row)),
            y: y_of(place),
        })
    }

    /// Returns the width of the text of a row.
    fn text_width(&self, alloc: Global, place: usize) -> Result<usize, AllocError> {
        let Some(row) = self.rows.get(place) else {
            return Ok(0);
        };
        let text = item_label(alloc, self.checker, row.place)?;
        Ok(shown_length(text.as_str()).saturating_mul(THREE_CHARACTERS) / 3)
    }

    /// Returns the point after the text of a row.
    pub(crate) fn right_end(
        &self,
        alloc: Global,
        place: usize,
    ) -> Result<Option<Point>, AllocError> {
        let Some(dot) = self.dot(place) else {
            return Ok(None);
        };
        let text = dot.x.saturating_add(BESIDE_DOT);
        let width = self.text_width(alloc, place)?;
        Ok(Some(Point {
            x: text.saturating_add(width).saturating_add(BESIDE_TEXT),
            y: dot.y,
        }))
    }
}
