//! The entries of a book as plain data.

ghost use Rattle.std.specs.Prelude.{◌≡◌};

use campaign_jobs::JobResult;

/// A row: an entry of a book as plain data.
#[derive(Clone, Copy, Debug, PartialEq, Eq)]
pub enum Row {
    /// The result of the job with a number.
    Done { number: u64, result: JobResult },
    /// A number that is skipped because of another one. In a book, the other is smaller and its job has a cycle.
    Skipped { number: u64, because: u64 },
}

/// The totals of a book's rows.
#[derive(Clone, Copy, Debug, PartialEq, Eq)]
pub struct Totals {
    /// The number of rows.
    pub rows: u64,
    /// The number of rows that are results.
    pub done: u64,
    /// The number of results with a cycle.
    pub cycles: u64,
}

impl Row {
    ghost use Rattle.campaign_book.specs.Rows.{number_of, is_done, is_cycle};

    /// Returns the number of the job.
    pub fn number(&self) -> u64
        ensures { result ≡ number_of self.now }
    {
        match self {
            Row::Done { number, .. } => *number,
            Row::Skipped { number, .. } => *number,
        }
    }

    /// Returns whether the row is a result.
    pub fn is_done(&self) -> bool
        ensures { result ≡ is_done self.now }
    {
        matches!(self, Row::Done { .. })
    }

    /// Returns whether the row is a result with a cycle.
    pub fn is_cycle(&self) -> bool
        ensures { result ≡ is_cycle self.now }
    {
        match self {
            Row::Done { result, .. } => result.atomicity.has_cycle(),
            Row::Skipped { .. } => false,
        }
    }
}
