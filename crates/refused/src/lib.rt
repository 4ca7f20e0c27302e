//! Repeats calls that are refused, for programs that are run with one refused allocation of the process. Such a program
//! prints what it prints with ample memory. Standard error names each call that was refused.
#![tactic(auto)]

mod files;
mod programs;

pub use files::{bytes_of, text_of, units_of, words_of};
pub use programs::{class_of, linked};
use std::fmt::Debug;

/// Makes a call, and makes it again if it is refused. Returns the answer, if there is one.
#[macro_export]
macro_rules! again {
    ($rt:expr, $name:literal, $call:expr) => {
        match $call {
            Ok(answer) => Some(answer),
            Err(fault) => {
                $crate::print($rt, $name, &fault);
                $call.ok()
            }
        }
    };
}

/// Prints to standard error that a call was refused. A failure to print changes no answer.
pub fn print<F: Debug>(rt: &HostRuntime, name: &str, fault: &F) {
    let _printed = eprintln!(rt; "{name}: {fault:?}");
}
