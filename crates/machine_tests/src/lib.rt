//! Tests of programs, the machine and its parts, and of the debugger's sessions. They are in a crate above the tested
//! ones, so that each of those is proved once. Expected values are from the Java Virtual Machine Specification (JVMS),
//! never from the program's answers.
//!
//! Only what no clause states is tested: that the definitions agree with the specification, and that public calls
//! succeed with ample memory. The data of `row_cases` tests the rules of instructions turn by turn, and the data of
//! `command_cases` tests what a run prints.
#![tactic(auto)]

#[cfg(test)]
mod arithmetic;
#[cfg(test)]
mod asked;
#[cfg(test)]
mod hierarchies;
#[cfg(test)]
mod lookup;
#[cfg(test)]
mod outcomes;
#[cfg(test)]
mod printed;
#[cfg(test)]
mod programs;
#[cfg(test)]
mod results;
#[cfg(test)]
mod sessions;
