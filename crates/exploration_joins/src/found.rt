//! What an exploration found: the words of its last line.

ghost use Rattle.std.specs.Prelude.{◌≡◌, MatchOption, None, Some, is_some};
ghost use Rattle.exploration_joins.specs.Joins.{covered_words, covers};
ghost use Rattle.exploration_joins.specs.Orders.{failing_below};

use departures::Departure;

/// What an exploration found.
#[derive(Debug, Drop)]
pub enum Found {
    /// A run with these departures fails. The words are those after its schedule.
    Failing {
        departures: Vec<Departure>,
        words: String,
    },
    /// All is covered. The words are the number of departures, and the patterns.
    Covered {
        words: String,
    },
    /// No run failed, and not all is covered.
    Stopped,
}

impl Found {
    /// Returns the words of what was covered, if all was found to be.
    pub(crate) fn covered_words(&self) -> Option<&str>
        ensures { MatchOption result (covered_words self.now ≡ None)
            (λ words. covered_words self.now ≡ Some words.now) }
    {
        match self {
            Found::Covered { words } => Some(words.as_str()),
            _ => None,
        }
    }

    /// Returns whether all was found to be covered.
    pub(crate) fn covers(&self) -> bool
        ensures { result ≡ covers self.now }
    {
        matches!(self, Found::Covered { .. })
    }

    /// Returns whether a run was found to fail that has fewer departures than the levels.
    pub(crate) fn fails_below(&self, levels: usize) -> bool
        ensures { result ≡ is_some (failing_below levels self.now) }
    {
        match self.failing_below(levels) {
            Some(_run) => true,
            None => false,
        }
    }

    /// Returns the departures of the run that was found to fail, if they are fewer than the levels.
    pub(crate) fn failing_below(&self, levels: usize) -> Option<&[Departure]>
        ensures { MatchOption result (failing_below levels self.now ≡ None)
            (λ run. failing_below levels self.now ≡ Some run.now) }
    {
        match self {
            Found::Failing { departures, .. } if departures.len() < levels => {
                Some(departures.as_slice())
            }
            _ => None,
        }
    }
}
