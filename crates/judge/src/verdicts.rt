//! The judgement on a trace, if there is a specification.

ghost use Rattle.std.specs.Prelude.{IfOk};
ghost use Rattle.velodrome.specs.Specification.{Specification};
ghost use Rattle.judge.specs.Judgement.{IsJudgement};
ghost use Rattle.program_runs.specs.Judgements.{IsJudgementBy, MayBeFed};

use atom_graph::Checker;
use atom_spec::Spec;
use jvms_machine::trace::Item;
use program_runs::{Judgement, feed_items, judgement_of};
use std::alloc::{AllocError, Global};
use trace::Trace;

/// Judges items by a specification.
fn judge_items(alloc: Global, spec: Spec, items: &[Item]) -> Result<Judgement, AllocError>
    requires { MayBeFed spec items.now }
    ensures { IfOk result (IsJudgementBy spec items.now) }
{
    let mut checker = Checker::new(alloc, spec)?;
    feed_items(&mut checker, items)?;
    judgement_of(&checker)
}

/// Judges a trace, if there is a specification.
pub(crate) fn judge_trace(
    alloc: Global,
    spec: Option<Spec>,
    trace: &Trace,
) -> Result<Option<Judgement>, AllocError>
    requires { (lines : Specification) → MayBeFed lines trace.now }
    ensures { IfOk result (IsJudgement spec trace.now) }
{
    match spec {
        None => Ok(None),
        Some(spec) => {
            let judgement = judge_items(alloc, spec, trace.items())?;
            Ok(Some(judgement))
        }
    }
}
