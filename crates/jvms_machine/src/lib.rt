//! The machine (JVMS 2, 6.5): its inputs and answers, and in `specs/` its state, the transitions of the instruction
//! table, turns and runs.
#![tactic(auto)]

pub mod action;
pub mod laws;
pub mod machine;
pub mod soundness;
pub mod state;
pub mod trace;
pub mod value;
