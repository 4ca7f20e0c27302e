//! The reasons why a campaign has no table.

use campaign_book::{Book, StoreFault};

/// A reason why a campaign has no table.
#[derive(Drop)]
pub enum Halted<'a> {
    /// G01: the plan has more than 1,000,000 jobs.
    TooManyJobs,
    /// G02: there is no worker, or there are more than 64.
    TooManyWorkers,
    /// G04: memory ran out before any worker began.
    Memory,
    /// G05: memory ran out later, for a worker or for the table.
    WorkerFailed {
        /// The book, which has what was stored.
        book: Book<'a>,
        /// The reason: a growth was refused. The book itself refused no entry.
        cause: StoreFault,
    },
}
