//! Runs cases of instructions' rules from files, and prints those whose results differ from the wanted ones. The words
//! are the names of the files. The wanted results are read off the Java Virtual Machine Specification (JVMS 2, 5, 6.5)
//! and this project's own rules, not off the program's answers.
//!
//! A case without wanted results is a group of sources, for the cases of its file that name it. The sections of a case:
//!
//! - `source`: a class of the program, in Jasmin. `with GROUP`: the sources of a group.
//! - `code DESCRIPTOR`: the lines of a static method `m` of a class `M`, which is a class of the program, and the
//!   entry. Its limits are 6 operands and 3 local variables, unless the lines begin with others.
//! - `entry CLASS`: its main. `entry C.m.D ARGUMENT ..`: a static method. An argument that ends with `J` is a long.
//! - `limits`: words of `objects N`, `elements N`, `threads N`, `frames N`.
//! - `choices`: thread numbers, each optionally with a repetition, as `0 1x3`. Without them, thread 0 is chosen while
//!   it is enabled.
//! - `turns`: for each turn, the thread and the outcome, followed by the items. Consecutive equal turns are one line,
//!   as `0 Ran x3`, where only the last has items.
//! - `items`: the items only. `outcomes`: the threads and the outcomes only.
//! - `wants`: queries about the machine after all turns with their answers, one line each, as `shown.rt` lists. If
//!   there is no machine, the line is its fault, as `fault M01 NoEntry`.
#![tactic(auto)]

mod case_run;
mod lines;
mod make;
mod objects;
mod run_cases;
mod setting;
mod shown;
mod stop;
mod texts;
mod threads;

use crate::run_cases::{Tally, run_cases};
use std::process::ExitCode;
use std::{env, fs, io};

/// Runs the cases of each file, prints those that differ, and returns the tally.
fn run_files(rt: &HostRuntime) -> io::Result<Tally> {
    let mut tally = Tally::default();
    for name in env::args(rt)?.skip(1) {
        let file = fs::read_to_string(rt, name.as_str())?;
        let mut differences = String::new(rt.alloc());
        let counted = run_cases(rt.alloc(), file.as_str(), &mut differences)?;
        tally = tally.with(counted);
        print!(rt; "{}", differences.as_str())?;
    }
    Ok(tally)
}

fn main(rt: HostRuntime) -> io::Result<ExitCode> {
    let tally = run_files(&rt)?;
    println!(rt; "{} rows give what is wanted", tally.alike)?;
    if tally.otherwise > 0 {
        println!(rt; "{} rows don't", tally.otherwise)?;
        return Ok(ExitCode::FAILURE);
    }
    Ok(ExitCode::SUCCESS)
}
