//! Ranks of classes, which make most tests for a circular class need no search (Tarjan's algorithm for strongly
//! connected components).

use shared_data::items::Items;
use std::alloc::{AllocError, Global};

/// Returns the number at a place, or 0 if there is none.
fn at(numbers: &[usize], place: usize) -> usize {
    numbers.get(place).copied().unwrap_or(0)
}

/// Writes the number at a place, if there is the place.
pub(crate) fn put(numbers: &mut [usize], place: usize, number: usize) {
    if place < numbers.len() {
        numbers[place] = number;
    }
}

/// Returns the number at a place of a row.
fn number_in(rows: &[Items<usize>], row: usize, place: usize) -> Option<usize> {
    rows.get(row)?.as_slice().get(place).copied()
}

/// A depth-first search from class to superclass and superinterface. Each visited class is numbered, from 1.
#[derive(Drop)]
struct Search {
    /// The count of visited classes.
    met: usize,
    /// The number of each class in the order of visits, or 0 if it wasn't visited yet.
    order: Vec<usize>,
    /// The least of these numbers that is known to be reached from each class.
    least: Vec<usize>,
    /// The count of complete components. A class that isn't circular is a component of its own.
    whole: usize,
    /// The number of each class's component in the order of completion, or 0 if it isn't complete yet.
    ranks: Vec<usize>,
    /// The visited classes that have no rank yet.
    open: Vec<usize>,
    /// The classes on the current path, each with the count of its supers that were followed.
    path: Vec<(usize, usize)>,
}

impl Search {
    /// Creates a search that hasn't begun.
    fn new(alloc: Global, classes: usize) -> Result<Self, AllocError> {
        Ok(Search {
            met: 0,
            order: vec![in alloc; 0; classes]?,
            least: vec![in alloc; 0; classes]?,
            whole: 0,
            ranks: vec![in alloc; 0; classes]?,
            open: Vec::new(alloc),
            path: Vec::new(alloc),
        })
    }

    /// Visits a class.
    fn enter(&mut self, class: usize) -> Result<(), AllocError> {
        self.met = self.met.saturating_add(1);
        put(&mut self.order, class, self.met);
        put(&mut self.least, class, self.met);
        self.open.push(class)?;
        self.path.push((class, 0))?;
        Ok(())
    }

    /// Records that a visited class is reached from a class.
    fn reach(&mut self, class: usize, time: usize) {
        if time < at(&self.least, class) {
            put(&mut self.least, class, time);
        }
    }

    /// Completes the component of a class: gives a rank to the open classes, down to this one.
    fn close(&mut self, class: usize) {
        self.whole = self.whole.saturating_add(1);
        for _ in 0..self.open.len() {
            let Some(open) = self.open.pop() else {
                return;
            };
            put(&mut self.ranks, open, self.whole);
            if open == class {
                return;
            }
        }
    }

    /// Returns from a class to the one from which it was visited.
    fn leave(&mut self, class: usize) {
        let least = at(&self.least, class);
        if least == at(&self.order, class) {
            self.close(class);
        }
        if let Some((below, _)) = self.path.last().copied() {
            self.reach(below, least);
        }
    }

    /// Takes one step, and returns whether the search was in a class.
    fn step(&mut self, rows: &[Items<usize>]) -> Result<bool, AllocError> {
        let Some((class, gone)) = self.path.pop() else {
            return Ok(false);
        };
        let Some(above) = number_in(rows, class, gone) else {
            self.leave(class);
            return Ok(true);
        };
        self.path.push((class, gone.saturating_add(1)))?;
        let time = at(&self.order, above);
        if time == 0 {
            self.enter(above)?;
        } else if at(&self.ranks, above) == 0 {
            self.reach(class, time);
        }
        Ok(true)
    }

    /// Searches from a class on, unless it was visited.
    fn search_from(&mut self, rows: &[Items<usize>], class: usize) -> Result<(), AllocError> {
        if at(&self.order, class) != 0 {
            return Ok(());
        }
        self.enter(class)?;
        for _ in 0..u64::MAX {
            if !self.step(rows)? {
                break;
            }
        }
        Ok(())
    }
}

/// Returns ranks of classes, given the numbers of each one's superclass and superinterfaces. None of these has a higher
/// rank than the class, and one with the same rank is in a circular hierarchy with it. None of this is proved, so
/// callers test the ranks.
pub fn ranks_of(alloc: Global, rows: &[Items<usize>]) -> Result<Vec<usize>, AllocError> {
    let mut search = Search::new(alloc, rows.len())?;
    for class in 0..rows.len() {
        search.search_from(rows, class)?;
    }
    Ok(search.ranks)
}
