//! Prints a judged run.

use judge::Judged;
use refused::again;

/// Prints what the threads did, and how the run ended.
fn print_run(rt: &HostRuntime, judged: &Judged) -> Option<()> {
    let items = again!(
        rt,
        "trace",
        trace_text::write(rt.alloc(), &judged.run.trace)
    )?;
    println!(rt; "{items}{:?}", judged.run.ending).ok()
}

/// Prints what the threads did, how the run ended, and the verdict.
pub(crate) fn print(rt: &HostRuntime, judged: &Judged) -> Option<()> {
    print_run(rt, judged)?;
    let judgement = judged.judgement.as_ref()?;
    println!(rt; "{judgement:?}").ok()
}
