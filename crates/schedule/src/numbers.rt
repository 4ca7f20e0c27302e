//! Numbers in texts: decimal digits without a sign. Leading zeros are allowed.

ghost use Rattle.std.specs.Prelude.{ℕ, ◌≡◌, ◌^◌, ◌<◌, MatchOption};
ghost use Rattle.std.specs.Option.{SomeIff};
ghost use Rattle.std.specs.Str.Parse.{IsNumeral, digits_value};
ghost use Rattle.schedule.specs.Schedules.{WritesDepth, WritesQuantum, WritesThread, WritesTurns};

use jvms_machine::machine::ThreadId;

/// Returns the number that a text writes, if it is below 2^32.
pub(crate) fn short_number(text: &str) -> Option<u32>
    ensures { SomeIff result (IsNumeral 10 text.now × (digits_value 10 text.now < 2 ^ 32))
        (digits_value 10 text.now) }
{
    if text.starts_with('+') {
        return None;
    }
    text.parse::<u32>().ok()
}

/// Returns the number that a text writes, if it is below 2^64.
pub(crate) fn long_number(text: &str) -> Option<u64>
    ensures { SomeIff result (IsNumeral 10 text.now × (digits_value 10 text.now < 2 ^ 64))
        (digits_value 10 text.now) }
{
    if text.starts_with('+') {
        return None;
    }
    text.parse::<u64>().ok()
}

/// Returns the number of a thread that a text writes, if it writes one.
pub(crate) fn thread_number(text: &str) -> Option<ThreadId>
    ensures { MatchOption result ((thread : ℕ) → ¬ (WritesThread text.now thread))
        (WritesThread text.now) }
{
    short_number(text)
}

/// Returns the quantum that a text writes, if it writes one from 1 to 1,000,000.
pub(crate) fn quantum(text: &str) -> Option<u32>
    ensures { MatchOption result ((quantum : ℕ) → ¬ (WritesQuantum text.now quantum))
        (WritesQuantum text.now) }
{
    let quantum = short_number(text)?;
    if 1 <= quantum && quantum <= 1_000_000 {
        Some(quantum)
    } else {
        None
    }
}

/// Returns the depth that a text writes, if it writes one from 1 to 64.
pub(crate) fn depth(text: &str) -> Option<u32>
    ensures { MatchOption result ((depth : ℕ) → ¬ (WritesDepth text.now depth))
        (WritesDepth text.now) }
{
    let depth = short_number(text)?;
    if 1 <= depth && depth <= 64 {
        Some(depth)
    } else {
        None
    }
}

/// Returns the number of turns that a text writes, if it writes one from 1 to 2^32.
pub(crate) fn turns(text: &str) -> Option<u64>
    ensures { MatchOption result ((turns : ℕ) → ¬ (WritesTurns text.now turns))
        (WritesTurns text.now) }
{
    let turns = long_number(text)?;
    if 1 <= turns && turns <= 4_294_967_296 {
        Some(turns)
    } else {
        None
    }
}
