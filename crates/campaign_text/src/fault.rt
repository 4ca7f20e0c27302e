//! The reasons why a text is no table, or why tables of parts can't be joined.

use std::alloc::AllocError;
use thiserror::Error;

/// A reason why a text isn't the text of a table.
#[derive(Clone, Copy, Debug, PartialEq, Eq, Error)]
pub enum TableFault {
    /// T01: the number of the first line, from 1, that isn't as `campaign` writes it.
    #[error("T01 Syntax line {line}")]
    Syntax { line: usize },
    /// Memory ran out.
    #[error("Memory")]
    Memory,
}

impl From<AllocError> for TableFault {
    fn from(_error: AllocError) -> TableFault {
        TableFault::Memory
    }
}

/// A reason why tables aren't those of the parts of a whole.
#[derive(Clone, Copy, Debug, PartialEq, Eq, Error)]
pub enum JoinFault {
    /// T02: the first job, from 0, that no table has, although a table has a later one.
    #[error("T02 MissingJob {job}")]
    Missing { job: u64 },
    /// T03: the first job that two tables have.
    #[error("T03 RepeatedJob {job}")]
    Repeated { job: u64 },
    /// Memory ran out.
    #[error("Memory")]
    Memory,
}

impl From<AllocError> for JoinFault {
    fn from(_error: AllocError) -> JoinFault {
        JoinFault::Memory
    }
}
