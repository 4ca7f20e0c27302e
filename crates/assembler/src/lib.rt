//! Assembles a Jasmin source to a class file (JVMS 4), or reports why it can't.
#![tactic(auto)]

mod assembling;
mod catches;
mod class;
mod fields;
mod listing;
mod methods;
mod operands;
mod throws;

pub use assembling::assemble;
pub use assembly::fault::AsmFault;
pub use class_file::ClassFile;
