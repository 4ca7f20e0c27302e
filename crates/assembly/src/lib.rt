//! Defines the class file that a source is assembled to, apart from the code that assembles it. The definitions in
//! `specs/`, which contracts cite, determine the indices of the constant pool's entries and the bytes of each
//! instruction.
#![tactic(auto)]

pub mod fault;
