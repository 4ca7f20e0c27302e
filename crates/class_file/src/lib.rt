//! Class files (JVMS 4): reads a class or the first fault from bytes, and writes the bytes of a class.
#![tactic(auto)]

mod attribute;
mod class;
mod code;
mod content;
mod field;
mod laws;
mod method;
mod names;
mod seen;
mod spelled;
mod writing;

pub use jvms_file::class_file::{
    Code, FieldAttribute, FieldInfo, Handler, KeptAttribute, Layout, MethodAttribute, MethodInfo,
};
pub use jvms_file::fault::{ClassFault, ReadError};
pub use laws::{what_is_written_is_read_again, what_is_written_spells};
pub use names::{CODE, CONSTANT_VALUE, EXCEPTIONS};
pub use spelled::{ClassFile, read, write};
