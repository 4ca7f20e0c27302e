//! The reasons why a case has no machine.

use std::alloc::{AllocError, AllocFailed, Global};
use std::fmt::Display;

/// The reason why a case has no machine.
#[derive(Drop)]
pub enum Stop {
    /// A source, the program, the entry or the limits were refused, with this text of the fault.
    Refused(String),
    /// Memory ran out.
    Memory,
}

impl From<AllocError> for Stop {
    fn from(_error: AllocError) -> Stop {
        Stop::Memory
    }
}

impl<T: Drop> From<AllocFailed<T>> for Stop {
    fn from(_error: AllocFailed<T>) -> Stop {
        Stop::Memory
    }
}

/// Returns the stop with the text of a fault.
pub fn refused<F: Display>(alloc: Global, fault: &F) -> Stop {
    match format!(in alloc; "{fault}") {
        Ok(text) => Stop::Refused(text),
        Err(_) => Stop::Memory,
    }
}
