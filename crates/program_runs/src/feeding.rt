//! Items that are fed to a checker of atomicity, and its verdict on them.

ghost use Rattle.std.specs.Prelude.{◌≡◌, None, IfOk, OnOk};
ghost use Rattle.atom_graph.specs.Checking.{fault_of, with_item};
ghost use Rattle.program_runs.specs.Judgements.{IsJudgementBy, MayFollow, with_items};

use atom_graph::{Checker, Counts, FeedFault};
use jvms_machine::trace::Item;
use std::alloc::AllocError;
use velodrome::verdict::Verdict;

/// The verdict on a trace by a specification, and the trace's counts.
#[derive(Debug, Drop)]
pub struct Judgement {
    pub verdict: Verdict,
    /// The numbers of events and transactions of the trace.
    pub counts: Counts,
}

/// Feeds an item that is at no fault.
fn feed(checker: &mut Checker, item: &Item) -> Result<(), AllocError>
    requires { fault_of checker.old item.now ≡ None }
    ensures { OnOk result (checker.new ≡ with_item item.now checker.old) }
{
    match checker.feed(item) {
        Ok(()) => Ok(()),
        Err(FeedFault::Memory) => Err(AllocError),
        Err(FeedFault::Unmatched | FeedFault::TooMany) => unreachable!(),
    }
}

/// Feeds items that are at no fault.
pub fn feed_items(checker: &mut Checker, items: &[Item]) -> Result<(), AllocError>
    requires { MayFollow checker.old items.now }
    ensures { OnOk result (checker.new ≡ with_items items.now checker.old) }
{
    for item in items {
        feed(checker, item)?;
    }
    Ok(())
}

/// Returns the verdict of a checker on the trace that it was fed, and the trace's counts.
pub fn judgement_of(checker: &Checker) -> Result<Judgement, AllocError>
    ensures { IfOk result (IsJudgementBy checker.now.lines checker.now.items) }
{
    Ok(Judgement {
        verdict: checker.verdict()?,
        counts: checker.counts(),
    })
}
