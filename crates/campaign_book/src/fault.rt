//! The reasons why a book refuses an entry.

use thiserror::Error;

/// A reason why a book refuses an entry. The first reason that applies is returned, in this order.
#[derive(Clone, Copy, Debug, PartialEq, Eq, Error)]
pub enum StoreFault {
    /// G07: the number isn't below the number of jobs.
    #[error("G07 Range")]
    Range,
    /// G03: the book has an entry with this number.
    #[error("G03 Repeated")]
    Repeated,
    /// G06: the plan doesn't stop, or the report that the entry names isn't in the book, has no cycle, or isn't of
    /// a smaller number.
    #[error("G06 NotSkippable")]
    NotSkippable,
    /// G04: memory ran out.
    #[error("G04 Memory")]
    Memory,
}
