//! The number of turns over which the priorities of a campaign's jobs change.

ghost use Rattle.std.specs.Prelude.{length, IfErr, IfOk};
ghost use Rattle.judge.specs.Faults.{IsFault, NamesFile};
ghost use Rattle.campaigning.specs.Spans.{IsSpanIn, default_shown};

use inputs::Input;
use judge::{JudgeFault, run};
use jvms_machine::machine::{Entry, Limits};
use priority_limits::Span;
use schedule::Chooser;
use std::alloc::Global;
use turn_limit::TurnLimit;

/// Returns the number of turns of the run of the default, which is the schedule `stay:`. It is at least 1 and at most 2^32.
/// All parts of a campaign have the same, since no job and no seed is named.
///
/// # Errors
///
/// Those of `judge`.
#[tactic(auto, using(crate::proofs::SpanLemmas::span_is))]
pub fn default_span(
    alloc: Global,
    inputs: &[Input],
    limits: Limits,
    entry: &Entry,
    most: TurnLimit,
) -> Result<Span, JudgeFault>
    ensures span { IfOk result (IsSpanIn (default_shown most limits inputs.now entry.now)) }
    // A fault is returned only if its condition holds. A fault of an input names one of these.
    ensures fault { IfErr result (λ fault.
        IsFault fault (default_shown most limits inputs.now entry.now)) }
    ensures named { IfErr result (NamesFile (length inputs.now)) }
{
    let mut chooser = Chooser::staying(alloc, Vec::new(alloc))?;
    let ran = run(alloc, inputs, limits, entry, &mut chooser, most, None)?;
    Ok(Span::nearest(ran.ending.turns))
}
