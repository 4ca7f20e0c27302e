//! The depth of priorities.

ghost use Rattle.std.specs.Prelude.{◌≡◌, ◌<◌, ◌≤◌, ◌⊎◌, MatchOption};

use std::marker::Model;

/// The greatest depth.
const MOST_DEPTH: u64 = 64;

/// A depth of priorities, from 1 to 64: they change once less often. Contracts see the number.
#[derive(Clone, Copy, Debug)]
pub struct Depth {
    number: u32,
}

impl Model for Depth {
    ghost use Rattle.std.specs.Prelude.{ℕ, ◌≤◌};

    ghost Value = { ℕ };

    ghost view = { λ d. d.number };

    ghost invariant = { λ d. (1 ≤ d.number) × (d.number ≤ 64) };

    ghost inverse = { λ number. record { number = number } };
}

impl Depth {
    /// Returns the depth of a number, or `None` if that isn't from 1 to 64.
    pub fn new(number: u64) -> Option<Depth>
        ensures { MatchOption result ((number < 1) ⊎ (64 < number)) (λ depth. depth ≡ number) }
    {
        if number < 1 || number > MOST_DEPTH {
            return None;
        }
        Some(Depth {
            number: number as u32,
        })
    }

    /// Returns the number, which is from 1 to 64.
    pub fn number(self) -> u32
        ensures number { result ≡ self }
        ensures some { 1 ≤ result }
        ensures within { result ≤ 64 }
    {
        self.number
    }
}
