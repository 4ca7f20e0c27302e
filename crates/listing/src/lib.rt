//! Lists a class file as the text of a source with the same meaning.
#![tactic(auto)]

mod listing;

pub use class_file::ClassFile;
pub use listing::list;
pub use listing_spec::fault::ListFault;
