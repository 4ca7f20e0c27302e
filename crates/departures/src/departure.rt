//! Departures: the choices of a schedule that differ from the default.

/// A choice that isn't the default.
#[derive(Clone, Copy, Debug, PartialEq, Eq)]
pub struct Departure {
    /// The number of turns before it.
    pub position: u64,
    /// The thread that takes the turn.
    pub thread: u32,
}
