//! Tests the machine's calls that no data of rules covers: which entries are admitted, consecutive turns, the state of
//! a new machine, and copies.

use crate::programs::{LIMITS, entry, program_of};
use crate::results::results_after;
use jvms_machine::value::Value;
use machine::{Argument, Entry, Limits, Machine, Outcome, admits};
use program::Program;
use std::alloc::{AllocError, Global};
use std::process::Abort;
use std::test::Fail;
use trace::Recording;

/// A class whose method has five instructions. The first four access their frame only.
const ADDS: &str = "
.class public R
.method static add(II)I
.limit stack 2
.limit locals 2
  iload_0
  iload_1
  nop
  iadd
  ireturn
.end method
";

/// A class whose method enters the monitor of a string, and makes an array of as many ints as its first argument. It
/// adds this length to the second argument by way of a static field.
const COUNTS: &str = "
.class public P
.field static count I
.method static add(II)I
.limit stack 2
.limit locals 2
  ldc \"text\"
  monitorenter
  iload_0
  newarray int
  arraylength
  putstatic P/count I
  iload_1
  getstatic P/count I
  iadd
  ireturn
.end method
";

/// Returns whether a method with arguments is admitted under a limit of `threads` threads.
fn admitted(
    alloc: Global,
    program: &Program,
    threads: u32,
    class: &str,
    arguments: &[Argument],
) -> Result<bool, AllocError> {
    let entry = entry(alloc, class, "add", "(II)I", arguments)?;
    let is_admitted = admits(program, Limits { threads, ..LIMITS }, &entry);
    drop(entry);
    Ok(is_admitted)
}

/// Returns whether an entry is admitted that can be run, and entries without a thread, without the class, and with too
/// few arguments.
fn all_admitted(alloc: Global, program: &Program) -> Result<[bool; 4], AllocError> {
    let two = [Argument::Int(20), Argument::Int(22)];
    let one = [Argument::Int(20)];
    Ok([
        admitted(alloc, program, 1, "R", &two)?,
        admitted(alloc, program, 0, "R", &two)?,
        admitted(alloc, program, 1, "H", &two)?,
        admitted(alloc, program, 1, "R", &one)?,
    ])
}

/// Decides whether a new machine has no such text, no such class object, and a first thread that hasn't ended.
fn is_bare(machine: &Machine<'_>) -> bool {
    machine.text_reference(&[97]).is_none()
        && machine.class_reference(&[82]).is_none()
        && machine.has_ended(0) == Some(false)
}

/// Takes consecutive turns of a thread that doesn't exist, then at most three and at most nine of thread 0. Returns the
/// number of turns taken each time, and the outcome of the next one.
fn consecutive(machine: &mut Machine<'_>, recording: &mut Recording) -> ([u64; 3], Outcome) {
    let taken = [
        machine.step_consecutive(7, 9, recording),
        machine.step_consecutive(0, 3, recording),
        machine.step_consecutive(0, 9, recording),
    ];
    (taken, machine.peek(0))
}

/// Returns whether the new machine is bare, and what those turns from it return.
fn answers_of(machine: &mut Machine<'_>) -> (bool, ([u64; 3], Outcome)) {
    let opening_is_bare = is_bare(machine);
    let taken = consecutive(machine, &mut Recording::of_nothing());
    (opening_is_bare, taken)
}

/// Makes a machine, and returns what its calls return.
fn answers(
    alloc: Global,
    program: &Program,
    entry: &Entry,
) -> Result<(bool, ([u64; 3], Outcome)), Fail> {
    let mut machine = Machine::new(alloc, program, LIMITS, entry)?;
    let answers = answers_of(&mut machine);
    drop(machine);
    Ok(answers)
}

/// Makes a machine for `R.add` of 20 and 22, and returns what its calls return.
fn answers_of_sum(alloc: Global, program: &Program) -> Result<(bool, ([u64; 3], Outcome)), Fail> {
    let two = [Argument::Int(20), Argument::Int(22)];
    let entry = entry(alloc, "R", "add", "(II)I", &two)?;
    let answers = answers(alloc, program, &entry);
    drop(entry);
    answers
}

/// Asserts what a machine's calls return. Two turns initialise the class, and the third is the call. Four instructions
/// continue it, and the fifth ends the thread.
fn assert_answers(rt: &impl Abort, alloc: Global, program: &Program) -> Result<(), Fail> {
    let admitted = all_admitted(alloc, program)?;
    assert_eq!(rt; admitted, [true, false, false, false]);
    let (opening_is_bare, (taken, next)) = answers_of_sum(alloc, program)?;
    assert!(rt; opening_is_bare);
    assert_eq!(rt; taken, [0, 3, 4]);
    assert_eq!(rt; next, Outcome::Ended { last: true });
    Ok(())
}

#[test]
fn a_machine_answers(rt: HostRuntime) -> Result<(), Fail> {
    let program = program_of(rt.alloc(), &[ADDS])?;
    let asserted = assert_answers(&rt, rt.alloc(), &program);
    drop(program);
    asserted
}

/// Makes a machine for `P.add` of 3 and 4, and copies it after `turns` turns. Returns the results of both.
fn results_of_sum(
    alloc: Global,
    program: &Program,
    turns: u64,
) -> Result<[Option<Value>; 2], Fail> {
    let two = [Argument::Int(3), Argument::Int(4)];
    let entry = entry(alloc, "P", "add", "(II)I", &two)?;
    let results = results_after(alloc, program, &entry, turns);
    drop(entry);
    results
}

/// Asserts that a machine and a copy of it return 7, after any number of turns before the copy. After nine turns there
/// are a string, its monitor, an array and a static field with a value.
fn assert_copies(rt: &impl Abort, alloc: Global, program: &Program) -> Result<(), Fail> {
    let seven = Some(Value::Int(7));
    for turns in 0..12 {
        let results = results_of_sum(alloc, program, turns)?;
        assert_eq!(rt; results, [seven, seven]);
    }
    Ok(())
}

#[test]
fn a_copy_runs_by_itself(rt: HostRuntime) -> Result<(), Fail> {
    let program = program_of(rt.alloc(), &[COUNTS])?;
    let asserted = assert_copies(&rt, rt.alloc(), &program);
    drop(program);
    asserted
}
