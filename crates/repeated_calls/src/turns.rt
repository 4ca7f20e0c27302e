//! Runs a program turn by turn, and judges its trace. The words are a specification, the class of `main`, and class
//! files.
//!
//! | Calls | Output |
//! |---|---|
//! | `Machine::new`, `step` for each thread in turn, and `copy` after some rounds | the outcome of each turn, then the trace, the threads and the output |
//! | `Checker::new`, `feed` for each item of the trace, `verdict` and `serial` | the number of transactions after each item, then the verdict and a serial order |
//!
//! `data/Nested.class` is assembled from `data/Nested.j`, and `data/LostUpdate.class` from
//! `examples/threads/LostUpdate.j`.

mod feeding;
mod running;

use atom_spec::Spec;
use refused::{again, linked, units_of};
use trace::Trace;

/// Runs the `main` of a class, prints what it did, and returns its trace.
fn trace_of(rt: &HostRuntime, class: &str, files: &[String]) -> Option<Trace> {
    let class = units_of(rt, class)?;
    let program = linked(rt, files)?;
    let trace = running::run(rt, &program, class);
    drop(program);
    trace
}

/// Judges a trace by the text of a specification, and prints the verdict.
fn judge(rt: &HostRuntime, spec: &str, trace: &Trace) -> Option<()> {
    let spec = again!(rt, "Spec::read", Spec::read(rt.alloc(), spec))?;
    feeding::judge(rt, &spec, trace)
}

/// Runs a program, and judges its trace.
pub(crate) fn perform(rt: &HostRuntime, words: &[String]) -> Option<()> {
    let (spec, class) = (words.first()?, words.get(1)?);
    let trace = trace_of(rt, class.as_str(), words.get(2..)?)?;
    judge(rt, spec.as_str(), &trace)
}
