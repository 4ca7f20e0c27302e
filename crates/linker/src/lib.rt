//! Linking (JVMS 5.3): makes a program of class files and the built-in classes, or refuses them.
#![tactic(auto)]

mod circles;
mod class;
mod code;
mod fault;
mod field;
mod instruction;
mod linking;
mod loadable;
mod method;
mod number_set;
mod reference;
mod refusals;
mod spelled;
mod texts;

pub use class::meaning;
pub use fault::LinkFault;
pub use jvms_file::class_file::ClassFile;
pub use linking::{classes_of, last_classes, link};
pub use program::Program;
