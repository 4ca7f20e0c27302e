//! Source lines of instructions, as class files have them (JVMS 4.7.10, 4.7.12).
#![tactic(auto)]

mod bytes;
mod files;
mod lines;
mod name;
mod place;
mod pool;
mod source;
mod table;

pub use files::SourceFiles;
pub use jvms_file::class_file::ClassFile;
pub use jvms_program::number::MethodNumber;
pub use place::put_place;
pub use source::{ClassSource, MethodSource};
