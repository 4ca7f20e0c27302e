//! The reasons why a case can't be run.

use commands::FileFault;
use std::alloc::{AllocError, AllocFailed};
use std::io;
use thiserror::Error;

/// A reason why a case can't be run.
#[derive(Clone, Copy, Debug, PartialEq, Eq, Error)]
pub(crate) enum CaseFault {
    #[error("the file has no cases")]
    Empty,
    #[error("a section is of no kind that there is")]
    Kind,
    #[error("a section has too few words")]
    Words,
    #[error("a word is no number")]
    Number,
    #[error("a section isn't in hexadecimal digits")]
    Digits,
    #[error("a file can't be read")]
    File,
    #[error("there was no memory")]
    Memory,
}

impl From<AllocError> for CaseFault {
    fn from(_error: AllocError) -> CaseFault {
        CaseFault::Memory
    }
}

impl<T: Drop> From<AllocFailed<T>> for CaseFault {
    fn from(_error: AllocFailed<T>) -> CaseFault {
        CaseFault::Memory
    }
}

impl From<io::Error> for CaseFault {
    fn from(_error: io::Error) -> CaseFault {
        CaseFault::File
    }
}

impl From<FileFault> for CaseFault {
    fn from(_fault: FileFault) -> CaseFault {
        CaseFault::File
    }
}
