//! One of several parts of an exploration.

ghost use Rattle.std.specs.Prelude.{◌≡◌, IfOk};
ghost use Rattle.exploration_parts.specs.Parts.{has_first, has_place, those_of};

use departures::Departure;
use std::alloc::{AllocError, Global};

/// One of several parts of an exploration's schedules. Part 0 has the one without a departure. Those with one departure
/// are dealt out to the parts one by one. Those with more belong to the part of the one that their first departure alone
/// makes.
#[derive(Debug, Clone, Copy, PartialEq, Eq)]
pub struct Part {
    /// The part's number, from 0.
    pub index: u64,
    /// The number of parts, at least 1.
    pub count: u64,
}

impl Part {
    /// Returns whether the schedule without a departure belongs to this part.
    pub fn has_first(self) -> bool
        ensures { result ≡ has_first self }
    {
        self.index == 0
    }

    /// Returns whether the schedule at a place among those with one departure belongs to this part.
    pub fn has_place(self, place: u64) -> bool
        ensures { result ≡ has_place self place }
    {
        place % self.count.max(1) == self.index
    }

    /// Returns those of these departures that belong to this part. Each makes a schedule by itself, in this order.
    ///
    /// # Errors
    ///
    /// Memory ran out.
    pub fn own_of(self, alloc: Global, all: &[Departure]) -> Result<Vec<Departure>, AllocError>
        ensures { IfOk result (λ own. own.items ≡ those_of self 0 all.now) }
    {
        let mut own = Vec::new(alloc);
        for (place, &departure) in all.iter().enumerate() {
            if self.has_place(place as u64) {
                own.push(departure)?;
            }
        }
        Ok(own)
    }
}
