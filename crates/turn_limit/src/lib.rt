//! The limit on the turns of a run.
#![tactic(auto)]

ghost use Rattle.std.specs.Prelude.{◌≡◌, ◌<◌, ◌≤◌, MatchOption};

use std::marker::Model;

/// The greatest `TurnLimit`, which bounds the turns of a run.
pub const MOST_TURNS: u64 = 100_000_000;

/// A limit on the turns of a run, at most 100,000,000. Contracts see the number.
#[derive(Clone, Copy, Debug, PartialEq, Eq)]
pub struct TurnLimit {
    turns: u64,
}

impl Model for TurnLimit {
    ghost use Rattle.std.specs.Prelude.{ℕ, ◌≤◌};

    ghost Value = { ℕ };

    ghost view = { λ l. l.turns };

    ghost invariant = { λ l. l.turns ≤ 100000000 };

    ghost inverse = { λ turns. record { turns = turns } };
}

impl TurnLimit {
    /// Returns the limit of a number of turns, or `None` if that is more than 100,000,000.
    pub fn new(turns: u64) -> Option<TurnLimit>
        ensures { MatchOption result (100000000 < turns)
            (λ limit. (limit ≡ turns) × (turns ≤ 100000000)) }
    {
        if turns > MOST_TURNS {
            return None;
        }
        Some(TurnLimit { turns })
    }

    /// Returns the number of turns, which is at most 100,000,000.
    pub fn turns(self) -> u64
        ensures turns { result ≡ self }
        ensures within { result ≤ 100000000 }
    {
        self.turns
    }
}
