//! Measures how many turns the machine takes per second: two nested loops through `Machine::run`, in large batches. The
//! word is the number of rounds of each loop, by default 950, which is 9,937,012 turns.
#![tactic(auto)]

use class_file::read;
use jvms_machine::machine::{Argument, Entry, Limits, Status};
use jvms_machine::value::Value;
use linker::link;
use machine::{Machine, is_enabled};
use program::Program;
use shared_data::items::Items;
use std::alloc::Global;
use std::process::ExitCode;
use std::{env, io};
use trace::Trace;

/// The number of turns of one call of `Machine::run`.
const BATCH: usize = 100_000;

/// The maximum number of such calls.
const MOST_BATCHES: usize = 1_000;

/// The number of rounds of each loop if there is no word.
const ROUNDS: i32 = 950;

const LIMITS: Limits = Limits {
    objects: 1_000,
    elements: 0,
    threads: 1,
    frames: 1,
};

/// static int f(int n) {
///     int s = 0;
///     for (int i = 0; i < n; i++)
///         for (int j = 0; j < n; j++)
///             s += i ^ j;
///     return s;
/// }
const NESTED: [u8; 138] = [
    0xca, 0xfe, 0xba, 0xbe, 0x00, 0x00, 0x00, 0x31, 0x00, 0x08, 0x01, 0x00, 0x01, 0x66, 0x01, 0x00,
    0x04, 0x28, 0x49, 0x29, 0x49, 0x01, 0x00, 0x04, 0x43, 0x6f, 0x64, 0x65, 0x01, 0x00, 0x06, 0x4e,
    0x65, 0x73, 0x74, 0x65, 0x64, 0x07, 0x00, 0x04, 0x01, 0x00, 0x10, 0x6a, 0x61, 0x76, 0x61, 0x2f,
    0x6c, 0x61, 0x6e, 0x67, 0x2f, 0x4f, 0x62, 0x6a, 0x65, 0x63, 0x74, 0x07, 0x00, 0x06, 0x00, 0x21,
    0x00, 0x05, 0x00, 0x07, 0x00, 0x00, 0x00, 0x00, 0x00, 0x01, 0x00, 0x09, 0x00, 0x01, 0x00, 0x02,
    0x00, 0x01, 0x00, 0x03, 0x00, 0x00, 0x00, 0x30, 0x00, 0x03, 0x00, 0x04, 0x00, 0x00, 0x00, 0x24,
    0x03, 0x3c, 0x03, 0x3d, 0x1c, 0x1a, 0xa2, 0x00, 0x1c, 0x03, 0x3e, 0x1d, 0x1a, 0xa2, 0x00, 0x0f,
    0x1b, 0x1c, 0x1d, 0x82, 0x60, 0x3c, 0x84, 0x03, 0x01, 0xa7, 0xff, 0xf2, 0x84, 0x02, 0x01, 0xa7,
    0xff, 0xe5, 0x1b, 0xac, 0x00, 0x00, 0x00, 0x00, 0x00, 0x00,
];

/// Returns the program of that class, if there is memory.
fn nested_loops(alloc: Global) -> Option<Program> {
    let class = read(alloc, &NESTED).ok()?.into_class();
    link(alloc, vec![in alloc; class].ok()?).ok()
}

fn text(alloc: Global, ascii: &str) -> Option<Items<u16>> {
    let units = ascii
        .as_bytes()
        .iter()
        .map(|b| u16::from(*b))
        .collect(alloc)
        .ok()?;
    Some(Items::from_vec(units))
}

/// Returns the entry of the method with a number of rounds, if there is memory.
fn entry_of(alloc: Global, rounds: i32) -> Option<Entry> {
    Some(Entry::Static {
        class: text(alloc, "Nested")?,
        name: text(alloc, "f")?,
        descriptor: text(alloc, "(I)I")?,
        arguments: Items::from_vec(vec![in alloc; Argument::Int(rounds)].ok()?),
    })
}

/// Takes turns, a batch at a time, until the method has returned, and counts them.
fn turns_of(alloc: Global, machine: &mut Machine<'_>) -> Option<usize> {
    let batch = vec![in alloc; 0u32; BATCH].ok()?;
    let mut turns = 0usize;
    for _ in 0..MOST_BATCHES {
        if machine.status() != Status::Running {
            return Some(turns);
        }
        let mut trace = Trace::new(alloc);
        let outcomes = machine.run(&batch, &mut trace).ok()?;
        let made = outcomes.iter().filter(|o| is_enabled(**o)).count();
        turns = turns.saturating_add(made);
    }
    Some(turns)
}

/// Returns the number of turns from an entry on, and the result of its method, if there is memory.
fn counted_from(alloc: Global, program: &Program, entry: &Entry) -> Option<(usize, Option<Value>)> {
    let mut machine = Machine::new(alloc, program, LIMITS, entry).ok()?;
    let turns = turns_of(alloc, &mut machine);
    let result = machine.result();
    drop(machine);
    Some((turns?, result))
}

/// Returns the number of turns of the program's method with a number of rounds, and its result, if there is memory.
fn counted_of(alloc: Global, program: &Program, rounds: i32) -> Option<(usize, Option<Value>)> {
    let entry = entry_of(alloc, rounds)?;
    let counted = counted_from(alloc, program, &entry);
    drop(entry);
    counted
}

/// Returns the number of turns of the method with a number of rounds, and its result, if there is memory.
fn counted(alloc: Global, rounds: i32) -> Option<(usize, Option<Value>)> {
    let program = nested_loops(alloc)?;
    let counted = counted_of(alloc, &program, rounds);
    drop(program);
    counted
}

/// Returns the rounds of the first word.
fn rounds_of(rt: &HostRuntime) -> io::Result<i32> {
    match env::args(rt)?.nth(1) {
        Some(word) => Ok(word.parse().unwrap_or(ROUNDS)),
        None => Ok(ROUNDS),
    }
}

fn main(rt: HostRuntime) -> io::Result<ExitCode> {
    let rounds = rounds_of(&rt)?;
    match counted(rt.alloc(), rounds) {
        Some((turns, Some(Value::Int(result)))) => {
            println!(rt; "turns {turns} result {result}")?;
            Ok(ExitCode::SUCCESS)
        }
        _ => Ok(ExitCode::from(3)),
    }
}
