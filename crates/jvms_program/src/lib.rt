//! Programs (JVMS 5): classes with their members by name. In `specs/` are the meaning of class files, the built-in
//! classes, and the resolution of names.
#![tactic(auto)]

pub mod attributes;
pub mod case_table;
pub mod frequent;
pub mod instructions;
pub mod key;
pub mod laws;
pub mod members;
pub mod number;
pub mod program;
pub mod thrown;
pub mod uses;
