//! Positions in the table.

/// The entry of an accessed place, and the kind of access.
#[derive(Clone, Copy, Debug)]
pub struct Slot {
    /// The entry's index.
    pub index: usize,
    /// `true` for a main access.
    pub is_main: bool,
}
