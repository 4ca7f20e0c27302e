//! Tests of what needs no program and no machine: class files and their parts, lines of sources, and assembled sources.
//! They are in a crate above the tested ones, so that each of those is proved once. Expected values are from the Java
//! Virtual Machine Specification (JVMS) or the rules of sources, never from the program's answers.
//!
//! Only what no clause states is tested. The definitions agree with the standard, by its own values. Each public call
//! succeeds with ample memory. The faults have their texts. More cases, as data, are in `command_cases`.
#![tactic(auto)]

#[cfg(test)]
mod assembled_code;
#[cfg(test)]
mod assembler_faults;
#[cfg(test)]
mod class_bytes;
#[cfg(test)]
mod classes;
#[cfg(test)]
mod cuts;
#[cfg(test)]
mod descriptors;
#[cfg(test)]
mod fault_texts;
#[cfg(test)]
mod instructions;
#[cfg(test)]
mod limits;
#[cfg(test)]
mod modified_utf8;
#[cfg(test)]
mod pools;
#[cfg(test)]
mod sources;
#[cfg(test)]
mod tokens;
