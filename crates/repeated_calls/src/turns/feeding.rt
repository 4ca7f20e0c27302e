//! Feeds the items of a trace to a checker.

use atom_graph::Checker;
use atom_spec::Spec;
use refused::again;
use std::alloc::{AllocError, Global};
use trace::Trace;

/// Makes a checker of a specification.
fn checker_of(alloc: Global, spec: &Spec) -> Result<Checker, AllocError> {
    Checker::new(alloc, spec.copy()?)
}

/// Feeds all items of a trace. After each, prints the number of transactions, and of those that are live.
fn feed_all(rt: &HostRuntime, checker: &mut Checker, trace: &Trace) -> Option<()> {
    for item in trace.items() {
        again!(rt, "feed", checker.feed(item))?;
        let transactions = checker.counts().transactions;
        println!(rt; "transactions {transactions} live {}", checker.live()).ok()?;
    }
    Some(())
}

/// Prints the verdict.
fn print_verdict(rt: &HostRuntime, checker: &Checker) -> Option<()> {
    let verdict = again!(rt, "verdict", checker.verdict())?;
    println!(rt; "{verdict:?}").ok()
}

/// Prints the numbers of the events in a serial order, if there is one.
fn print_serial(rt: &HostRuntime, checker: &Checker) -> Option<()> {
    let order = again!(rt, "serial", checker.serial())?;
    println!(rt; "{order:?}").ok()
}

/// Feeds a checker all items of a trace, and prints its verdict and a serial order.
fn judge_by(rt: &HostRuntime, checker: &mut Checker, trace: &Trace) -> Option<()> {
    feed_all(rt, checker, trace)?;
    print_verdict(rt, checker)?;
    print_serial(rt, checker)
}

/// Makes a checker, feeds it the items of a trace, and prints its verdict and a serial order.
pub(crate) fn judge(rt: &HostRuntime, spec: &Spec, trace: &Trace) -> Option<()> {
    let mut checker = again!(rt, "Checker::new", checker_of(rt.alloc(), spec))?;
    let judged = judge_by(rt, &mut checker, trace);
    drop(checker);
    judged
}
