//! Provides the results of machines to other tests: those of a copy, and of the machine itself.

use crate::programs::LIMITS;
use jvms_machine::value::Value;
use machine::{Entry, Machine};
use program::Program;
use std::alloc::{AllocError, Global};
use std::test::Fail;
use trace::Recording;

/// Runs thread 0 to its end and returns the result.
fn result_of(machine: &mut Machine<'_>) -> Result<Option<Value>, AllocError> {
    let mut recording = Recording::of_nothing();
    let _ = machine.step_consecutive(0, 99, &mut recording);
    let _ = machine.step_watched(0, &mut recording)?;
    Ok(machine.result())
}

/// Runs two machines to their end, one after the other, and returns their results.
fn results_of(
    first: &mut Machine<'_>,
    second: &mut Machine<'_>,
) -> Result<[Option<Value>; 2], Fail> {
    Ok([result_of(first)?, result_of(second)?])
}

/// Takes `turns` turns and makes a copy. Runs the copy to its end, then the machine itself, and returns their results.
fn results_of_both(machine: &mut Machine<'_>, turns: u64) -> Result<[Option<Value>; 2], Fail> {
    let _ = machine.step_consecutive(0, turns, &mut Recording::of_nothing());
    let mut copy = machine.copy()?;
    let results = results_of(&mut copy, machine);
    drop(copy);
    results
}

/// Makes a machine and returns those results.
pub fn results_after(
    alloc: Global,
    program: &Program,
    entry: &Entry,
    turns: u64,
) -> Result<[Option<Value>; 2], Fail> {
    let mut machine = Machine::new(alloc, program, LIMITS, entry)?;
    let results = results_of_both(&mut machine, turns);
    drop(machine);
    results
}
