//! The syntax of Jasmin sources: plain data that the crates of the assembler share. `specs/` has the definitions that
//! their contracts cite. The language is this project's own profile of Jasmin. Where another assembler differs, the
//! definitions here decide.
#![tactic(auto)]

pub mod laws;
pub mod mnemonic;
pub mod reading;
pub mod source;
pub mod statement;
pub mod token;
