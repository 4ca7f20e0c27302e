//! Defines the listing of a class file, apart from the code that makes it: the tree of a source with the class's
//! meaning, and its text. `specs/` has the definitions that contracts cite.
#![tactic(auto)]

pub mod fault;
