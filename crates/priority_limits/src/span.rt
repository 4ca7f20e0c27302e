//! The turns in which priorities change.

ghost use Rattle.std.specs.Prelude.{◌≡◌, ◌≤◌, max, min};

use std::marker::Model;

/// The greatest number of turns in which priorities change.
const MOST_TURNS: u64 = 4_294_967_296;

/// A number of first turns of a run, from 1 to 4,294,967,296. Priorities change after some of these turns. Contracts see
/// the number.
#[derive(Clone, Copy, Debug)]
pub struct Span {
    turns: u64,
}

impl Model for Span {
    ghost use Rattle.std.specs.Prelude.{ℕ, ◌≤◌};

    ghost Value = { ℕ };

    ghost view = { λ s. s.turns };

    ghost invariant = { λ s. (1 ≤ s.turns) × (s.turns ≤ 4294967296) };

    ghost inverse = { λ turns. record { turns = turns } };
}

impl Span {
    /// Returns the span of this number of turns, or of the nearest number from 1 to 4,294,967,296.
    pub fn nearest(turns: u64) -> Span
        ensures { result ≡ max 1 (min 4294967296 turns) }
    {
        if turns < 1 {
            return Span { turns: 1 };
        }
        if turns > MOST_TURNS {
            return Span { turns: MOST_TURNS };
        }
        Span { turns }
    }

    /// Returns the number of turns, which is from 1 to 4,294,967,296.
    pub fn turns(self) -> u64
        ensures turns { result ≡ self }
        ensures some { 1 ≤ result }
        ensures within { result ≤ 4294967296 }
    {
        self.turns
    }
}
