//! The reasons why words have no command.

use clap::error::ErrorKind;
use std::alloc::{AllocError, AllocFailed};
use std::io;
use thiserror::Error;

/// A reason why words have no command.
#[derive(Clone, Copy, Debug, PartialEq, Eq, Error)]
pub enum WordsFault {
    /// P04: the words are no command line of this program.
    #[error("P04 Words")]
    Words,
    /// Memory ran out while reading the words.
    #[error("Memory")]
    Memory,
}

impl From<AllocError> for WordsFault {
    fn from(_error: AllocError) -> WordsFault {
        WordsFault::Memory
    }
}

impl<T: Drop> From<AllocFailed<T>> for WordsFault {
    fn from(_error: AllocFailed<T>) -> WordsFault {
        WordsFault::Memory
    }
}

impl From<io::Error> for WordsFault {
    fn from(error: io::Error) -> WordsFault {
        match error.kind() {
            io::ErrorKind::OutOfMemory => WordsFault::Memory,
            _ => WordsFault::Words,
        }
    }
}

impl From<clap::Error> for WordsFault {
    fn from(error: clap::Error) -> WordsFault {
        match error.kind() {
            ErrorKind::OutOfMemory => WordsFault::Memory,
            _ => WordsFault::Words,
        }
    }
}
