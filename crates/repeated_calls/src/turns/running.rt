//! Takes the turns of a machine, one by one.

use crate::limits::LIMITS;
use machine::{Entry, Machine, ThreadId, is_enabled};
use machine_text::{output_text, threads_text};
use program::Program;
use refused::again;
use shared_data::items::Items;
use trace::Trace;

/// The maximum number of rounds of a run. In a round each thread takes a turn.
const MOST_ROUNDS: u64 = 400;

/// Takes the turn of a thread, and prints its outcome. Returns whether the thread was enabled.
fn take(
    rt: &HostRuntime,
    machine: &mut Machine<'_>,
    t: ThreadId,
    trace: &mut Trace,
) -> Option<bool> {
    let outcome = again!(rt, "step", machine.step(t, trace))?;
    println!(rt; "{t} {outcome:?}").ok()?;
    Some(is_enabled(outcome))
}

/// Takes a turn of each thread, in order. Returns whether one was enabled.
fn take_round(rt: &HostRuntime, machine: &mut Machine<'_>, trace: &mut Trace) -> Option<bool> {
    let mut ran = false;
    for t in 0..machine.thread_count() {
        let enabled = take(rt, machine, u32::try_from(t).ok()?, trace)?;
        ran = ran || enabled;
    }
    Some(ran)
}

/// Replaces a machine by its copy.
fn replace(rt: &HostRuntime, machine: &mut Machine<'_>) -> Option<()> {
    *machine = again!(rt, "copy", machine.copy())?;
    Some(())
}

/// Takes rounds until no thread is enabled. Replaces the machine by its copy after rounds 1, 2, 4, 8 and so on.
fn take_all(rt: &HostRuntime, machine: &mut Machine<'_>, trace: &mut Trace) -> Option<()> {
    let mut next = 1u64;
    for round in 1..=MOST_ROUNDS {
        if !take_round(rt, machine, trace)? {
            break;
        }
        if round == next {
            replace(rt, machine)?;
            next = next.saturating_mul(2);
        }
    }
    Some(())
}

/// Prints what the threads did, where they are, and what was written.
fn print(rt: &HostRuntime, machine: &Machine<'_>, trace: &Trace) -> Option<()> {
    let items = again!(rt, "trace", trace_text::write(rt.alloc(), trace))?;
    print!(rt; "{items}").ok()?;
    let threads = again!(rt, "threads", threads_text(rt.alloc(), machine))?;
    print!(rt; "{threads}").ok()?;
    let output = again!(rt, "output", output_text(rt.alloc(), machine))?;
    print!(rt; "{output}").ok()
}

/// Takes all turns of a machine, prints what it did, and returns its trace.
fn trace_of(rt: &HostRuntime, machine: &mut Machine<'_>) -> Option<Trace> {
    let mut trace = Trace::new(rt.alloc());
    take_all(rt, machine, &mut trace)?;
    print(rt, machine, &trace)?;
    Some(trace)
}

/// Runs the `main` of a class, prints what it did, and returns its trace.
pub(crate) fn run(rt: &HostRuntime, program: &Program, class: Items<u16>) -> Option<Trace> {
    let entry = Entry::Main { class };
    let made = again!(
        rt,
        "Machine::new",
        Machine::new(rt.alloc(), program, LIMITS, &entry)
    );
    let mut machine = made?;
    let trace = trace_of(rt, &mut machine);
    drop(machine);
    trace
}
