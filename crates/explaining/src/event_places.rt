//! Writes where the events of a cycle are in the program.

ghost use Rattle.std.specs.Prelude.{◌≡◌, ◌++◌, cond, OnOk, [], take};
ghost use Rattle.std.specs.String.{string_bytes};
ghost use Rattle.explaining.specs.EventPlaces.{event_place, event_places, is_in_pairs, pairs_of};

use crate::event_turns::EventTurn;
use crate::places::put_at;
use jvms_program::number::MethodNumber;
use program::Program;
use source_lines::SourceFiles;
use std::alloc::{AllocError, Global};
use velodrome::verdict::{ConflictingPair, Verdict};

/// The maximum number of pairs of a cycle that are explained.
const MOST_EXPLAINED: usize = 64;

/// Returns the first pairs of a cycle.
fn first_pairs(pairs: &[ConflictingPair]) -> &[ConflictingPair]
    ensures { result.now ≡ take 64 pairs.now }
{
    if pairs.len() <= MOST_EXPLAINED {
        return pairs;
    }
    pairs.split_at(MOST_EXPLAINED).0
}

/// Returns the conflicting events that are explained.
fn pairs_of(verdict: &Verdict) -> &[ConflictingPair]
    ensures { result.now ≡ pairs_of verdict.now }
{
    match verdict {
        Verdict::Atomic { .. } => &[],
        Verdict::Cycle { pairs, .. } => first_pairs(pairs.as_slice()),
    }
}

/// Returns whether an event is in one of these pairs.
fn is_in_pairs(pairs: &[ConflictingPair], event: u64) -> bool
    ensures { result ≡ is_in_pairs pairs.now event }
{
    pairs
        .iter()
        .any(|pair| pair.earlier == event || pair.later == event)
}

/// Appends where an event is, if its thread was in a call.
fn put_event_place(
    alloc: Global,
    out: &mut String,
    program: &Program,
    sources: &SourceFiles,
    event: u64,
    place: Option<(MethodNumber, usize)>,
) -> Result<(), AllocError>
    ensures { OnOk result (string_bytes out.new ≡ string_bytes out.old
        ++ event_place program.now sources.now.first sources.now.files.now event place) }
{
    let Some((method, place)) = place else {
        return Ok(());
    };
    let name = format!(in alloc; "event {event}")?;
    out.push_str(name.as_str())?;
    put_at(out, program, sources, method, place)?;
    out.push_str("\n")?;
    Ok(())
}

/// Appends where event `number` is, if it is in one of these pairs.
fn put_event(
    alloc: Global,
    out: &mut String,
    program: &Program,
    sources: &SourceFiles,
    pairs: &[ConflictingPair],
    number: u64,
    event: &EventTurn,
) -> Result<(), AllocError>
    ensures { OnOk result (string_bytes out.new
        ≡ string_bytes out.old ++ cond (is_in_pairs pairs.now number) (event_place program.now
        sources.now.first sources.now.files.now number event.now.place) []) }
{
    if is_in_pairs(pairs, number) {
        put_event_place(alloc, out, program, sources, number, event.place)
    } else {
        Ok(())
    }
}

/// Appends where the events of these pairs are.
fn put_events(
    alloc: Global,
    out: &mut String,
    program: &Program,
    sources: &SourceFiles,
    pairs: &[ConflictingPair],
    events: &[EventTurn],
) -> Result<(), AllocError>
    ensures { OnOk result (string_bytes out.new ≡ string_bytes out.old ++ event_places program.now
        sources.now.first sources.now.files.now pairs.now 1 events.now) }
{
    for (index, event) in events.iter().enumerate() {
        put_event(alloc, out, program, sources, pairs, index as u64 + 1, event)?;
    }
    Ok(())
}

/// Appends where the events of a cycle are.
pub(crate) fn put_event_places(
    alloc: Global,
    out: &mut String,
    program: &Program,
    sources: &SourceFiles,
    verdict: &Verdict,
    events: &[EventTurn],
) -> Result<(), AllocError>
    ensures { OnOk result (string_bytes out.new ≡ string_bytes out.old ++ event_places program.now
        sources.now.first sources.now.files.now (pairs_of verdict.now) 1 events.now) }
{
    put_events(alloc, out, program, sources, pairs_of(verdict), events)
}
