//! The details that may follow a verdict.

/// The details that follow the verdict's line.
#[derive(Clone, Copy, Debug)]
pub struct Details {
    /// `true` if the events of an atomic trace follow, in a serial order.
    pub serial: bool,
    /// `true` if the lines that explain a cycle follow.
    pub explains: bool,
}
