//! Judges a run.

use crate::limits::{LIMITS, MOST_TURNS};
use atom_spec::Spec;
use inputs::Input;
use judge::{JudgeFault, Judged, judge};
use machine::Entry;
use refused::{again, bytes_of};
use schedule::Chooser;
use std::alloc::Global;
use turn_limit::TurnLimit;

/// The state and the stream of the schedule's random words.
const SEED: (u64, u64) = (1, 2);

/// Reads class files.
fn inputs_of(rt: &HostRuntime, names: &[String]) -> Option<Vec<Input>> {
    let mut inputs = again!(rt, "inputs", Vec::with_capacity(rt.alloc(), names.len()))?;
    for name in names {
        let bytes = bytes_of(rt, name.as_str())?;
        inputs.push(Input::ClassFile(bytes)).ok()?;
    }
    Some(inputs)
}

/// Judges a run by a specification.
fn judge_by(
    alloc: Global,
    inputs: &[Input],
    entry: &Entry,
    chooser: &mut Chooser,
    most: TurnLimit,
    spec: &Spec,
) -> Result<Judged, JudgeFault> {
    let spec = Some(spec.copy()?);
    judge(alloc, inputs, LIMITS, entry, chooser, most, spec)
}

/// Judges a run of the program of class files by a specification.
pub(crate) fn judged(
    rt: &HostRuntime,
    names: &[String],
    entry: &Entry,
    spec: &Spec,
) -> Option<Judged> {
    let inputs = inputs_of(rt, names)?;
    let most = TurnLimit::new(MOST_TURNS)?;
    let (state, stream) = SEED;
    // A refused call leaves the chooser unchanged, so both calls choose the same threads.
    let mut chooser = Chooser::seeded(state, stream);
    again!(
        rt,
        "judge",
        judge_by(
            rt.alloc(),
            inputs.as_slice(),
            entry,
            &mut chooser,
            most,
            spec
        )
    )
}
