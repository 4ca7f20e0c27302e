//! Laws about scripts of the debugger: a line is read as one result, and the bytes of a script have one answer.
#![tactic(auto)]

pub mod laws;
