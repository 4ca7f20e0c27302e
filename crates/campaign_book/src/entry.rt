//! The entries that a book stores.

ghost use Rattle.std.specs.Prelude.{◌≡◌};
ghost use Rattle.campaign_book.specs.Entries.{row_of};

use crate::row::Row;
use campaign_jobs::Report;

/// An entry that a book stores.
#[derive(Drop)]
pub enum BookEntry<'a> {
    /// The report of a job.
    Done(Report<'a>),
    /// A request to skip a number, because the job of a smaller one has a cycle.
    Skipped { number: u64, because: u64 },
}

impl BookEntry<'_> {
    /// Returns the entry as plain data.
    pub fn row(&self) -> Row
        ensures { result ≡ row_of self.now }
    {
        match self {
            BookEntry::Done(report) => Row::Done {
                number: report.number,
                result: report.result,
            },
            BookEntry::Skipped { number, because } => Row::Skipped {
                number: *number,
                because: *because,
            },
        }
    }
}
