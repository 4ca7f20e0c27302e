//! The book of a campaign: the reports of its jobs, and the numbers that were skipped.
#![tactic(auto)]

mod book;
mod entry;
mod fault;
pub mod laws;
mod row;
mod rows;

pub use book::Book;
pub use entry::BookEntry;
pub use fault::StoreFault;
pub use row::{Row, Totals};
