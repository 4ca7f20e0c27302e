//! Reads the FILE of a command, a class file or a source in Jasmin, as a class.
#![tactic(auto)]

mod code;
mod fault;
mod input;

pub use fault::InputFault;
pub use input::{Input, class_of};
