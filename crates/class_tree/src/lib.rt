//! Converts a class file to the tree of a source with the same meaning.
#![tactic(auto)]

mod code;
mod constants;
mod fields;
mod handlers;
mod labels;
mod marks;
mod methods;
mod opcodes;
mod operations;
mod references;
mod switches;
mod texts;
mod tree;

pub use jasmin::source::Source;
pub use jvms_file::class_file::ClassFile;
pub use listing_spec::fault::ListFault;
pub use tree::tree_of;
