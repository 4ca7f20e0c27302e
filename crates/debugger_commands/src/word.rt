//! Reads words that are numbers.

ghost use Rattle.std.specs.Prelude.{◌^◌, ◌<◌, MatchOption};
ghost use Rattle.debugger_commands.specs.Readings.{WritesNumber, WritesNone};

/// Returns the number that a word spells, if it spells one.
pub(crate) fn number(word: &str) -> Option<u32>
    ensures { MatchOption result (WritesNone word.now) (WritesNumber word.now) }
{
    if word.starts_with('+') {
        return None;
    }
    word.parse::<u32>().ok()
}
