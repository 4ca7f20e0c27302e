//! Guesses of entries by hash, which save most look-ups. Each guess is verified before use, so nothing depends on it.

use std::alloc::{AllocError, Global};

/// The initial number of slots.
const FEWEST: usize = 64;

/// The maximum number of slots.
const MOST: usize = 65_536;

/// A direct-mapped cache: the last entry that was found for each remainder of a hash.
#[derive(Drop)]
pub struct Guesses {
    entries: Vec<usize>,
    /// The number of wrong guesses since the cache last grew.
    wrong: usize,
}

impl Guesses {
    /// Returns an empty cache. It takes no memory.
    pub fn new(alloc: Global) -> Self {
        Guesses {
            entries: Vec::new(alloc),
            wrong: 0,
        }
    }

    /// Returns the slot of a hash.
    fn slot_of(&self, hash: u32) -> usize {
        hash as usize & self.entries.len().wrapping_sub(1)
    }

    /// Returns the guessed entry for a hash.
    pub fn at(&self, hash: u32) -> usize {
        let slot = self.slot_of(hash);
        if slot < self.entries.len() {
            self.entries[slot]
        } else {
            0
        }
    }

    /// Stores the entry that was looked up for a hash. The cache grows if it was wrong as often as it has slots.
    pub fn note(&mut self, hash: u32, entry: usize) -> Result<(), AllocError> {
        if self.wrong >= self.entries.len() {
            self.grow()?;
        }
        self.wrong = self.wrong.saturating_add(1);
        let slot = self.slot_of(hash);
        if slot < self.entries.len() {
            self.entries[slot] = entry;
        }
        Ok(())
    }

    /// Doubles the number of slots, up to the maximum.
    fn grow(&mut self) -> Result<(), AllocError> {
        let count = self.entries.len();
        if count < MOST {
            self.entries.resize((2 * count).max(FEWEST), 0)?;
            self.wrong = 0;
        }
        Ok(())
    }
}
