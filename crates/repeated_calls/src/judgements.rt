//! Judges a run under a seeded schedule by `judge`. Prints what the threads did, how the run ended and the verdict. The
//! words are a specification, the class of `main`, and class files.

mod judging;
mod shown;

use atom_spec::Spec;
use machine::Entry;
use refused::{again, units_of};

/// Judges a run, and prints the judgement.
pub(crate) fn perform(rt: &HostRuntime, words: &[String]) -> Option<()> {
    let (spec, class) = (words.first()?, words.get(1)?);
    let spec = again!(rt, "Spec::read", Spec::read(rt.alloc(), spec.as_str()))?;
    let class = units_of(rt, class.as_str())?;
    let entry = Entry::Main { class };
    let judged = judging::judged(rt, words.get(2..)?, &entry, &spec)?;
    shown::print(rt, &judged)
}
