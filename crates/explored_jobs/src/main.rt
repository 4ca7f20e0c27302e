//! Lists the jobs of an exploration, for bench/brute_force.py: a schedule `stay:..` a line, level by level. The words are
//! the greatest number of departures, the limit on the turns of each job, the main class, and sources.
#![tactic(auto)]

ghost use Rattle.std.specs.Prelude.{◌≡◌, ◌+◌, length};

use atom_spec::Spec;
use explore_jobs::{Departure, added_departures};
use exploring::Jobs;
use inputs::Input;
use judge::program_of;
use jvms_machine::machine::{Entry, Limits};
use machine::Machine;
use program::Program;
use refused::{text_of, units_of, words_of};
use std::io;
use std::process::ExitCode;

/// The limits of `jvmx run`.
const LIMITS: Limits = Limits {
    objects: 1_000_000,
    elements: 10_000_000,
    threads: 64,
    frames: 1_024,
};

/// The greatest number of departures, and the limit on the turns of each job.
#[derive(Clone, Copy)]
struct Bounds {
    departures: u64,
    turns: u64,
}

/// Prints the schedule of a job.
fn print_job(rt: &HostRuntime, departures: &[Departure]) -> io::Result<()> {
    print!(rt; "stay:")?;
    for (index, departure) in departures.iter().enumerate() {
        let comma = if index == 0 { "" } else { "," };
        print!(rt; "{comma}{}={}", departure.position, departure.thread)?;
    }
    println!(rt)
}

/// Prints the schedules of a level.
fn print_level(rt: &HostRuntime, jobs: &Jobs) -> io::Result<()> {
    for index in 0..jobs.len() {
        print_job(rt, jobs.get(index))?;
    }
    Ok(())
}

/// Appends the children of a job to the next level.
fn push_children(
    rt: &HostRuntime,
    machine: &mut Machine<'_>,
    turns: u64,
    departures: &[Departure],
    next: &mut Jobs,
) -> Option<()>
    requires { length departures.now + 1 ≡ next.old.each }
    ensures { next.new.each ≡ next.old.each }
{
    let within = Spec::read(rt.alloc(), "").ok()?;
    let added = added_departures(rt.alloc(), machine, &within, departures, turns).ok()?;
    for departure in added.as_slice() {
        next.push_child(departures, *departure).ok()?;
    }
    Some(())
}

/// Returns the next level.
fn next_level(
    rt: &HostRuntime,
    program: &Program,
    entry: &Entry,
    turns: u64,
    jobs: &Jobs,
) -> Option<Jobs> {
    let each = jobs.each().checked_add(1)?;
    let mut next = Jobs::without_jobs(rt.alloc(), each);
    for index in 0..jobs.len() {
        let mut machine = Machine::new(rt.alloc(), program, LIMITS, entry).ok()?;
        push_children(rt, &mut machine, turns, jobs.get(index), &mut next)?;
        drop(machine);
    }
    Some(next)
}

/// Prints the schedules of all levels.
fn list(rt: &HostRuntime, program: &Program, entry: &Entry, bounds: Bounds) -> Option<()> {
    let mut jobs = Jobs::first(rt.alloc());
    print_level(rt, &jobs).ok()?;
    for _ in 0..bounds.departures {
        jobs = next_level(rt, program, entry, bounds.turns, &jobs)?;
        print_level(rt, &jobs).ok()?;
    }
    Some(())
}

/// Reads sources.
fn inputs_of(rt: &HostRuntime, names: &[String]) -> Option<Vec<Input>> {
    let mut inputs = Vec::new(rt.alloc());
    for name in names {
        let text = text_of(rt, name.as_str())?;
        inputs.push(Input::Source(text)).ok()?;
    }
    Some(inputs)
}

/// Returns the numbers of the first two words.
fn bounds_of(words: &[String]) -> Option<Bounds> {
    Some(Bounds {
        departures: words.first()?.as_str().parse().ok()?,
        turns: words.get(1)?.as_str().parse().ok()?,
    })
}

/// Lists the jobs that the words name.
fn perform(rt: &HostRuntime) -> Option<()> {
    let words = words_of(rt)?;
    let bounds = bounds_of(words.as_slice())?;
    let class = units_of(rt, words.get(2)?.as_str())?;
    let inputs = inputs_of(rt, words.get(3..)?)?;
    let program = program_of(rt.alloc(), inputs.as_slice()).ok()?;
    list(rt, &program, &Entry::Main { class }, bounds)
}

fn main(rt: HostRuntime) -> ExitCode {
    match perform(&rt) {
        Some(()) => ExitCode::SUCCESS,
        None => ExitCode::from(3),
    }
}
