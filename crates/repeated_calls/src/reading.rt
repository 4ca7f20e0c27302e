//! Reads classes, lists, writes and links them. The words are FILEs: a source if the name ends in `.j`, else a class
//! file.
//!
//! | Calls | Output |
//! |---|---|
//! | `class_file::read`, or `jasmin_reader::read` and `assemble`, then `list` and `write`, for each FILE | its listing and its bytes |
//! | `link`, for all FILEs | the name of each class of the program that isn't built in |

mod class;
mod linking;
mod listed;

/// Prints the listings of FILEs, and then their program.
pub(crate) fn perform(rt: &HostRuntime, names: &[String]) -> Option<()> {
    listed::print_all(rt, names)?;
    linking::print(rt, names)
}
