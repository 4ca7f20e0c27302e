//! Class files (JVMS 4): their data, and in `specs/` the definitions of what bytes spell. Also the numbers of 32 and 64
//! bits on which instructions work (JVMS 2.11.3).
#![tactic(auto)]

pub mod class_file;
pub mod descriptor;
pub mod fault;
pub mod insn;
pub mod laws;
pub mod opcodes;
