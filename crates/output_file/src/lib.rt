//! Replaces a file as a whole: writes a fresh file beside it, and renames that to the file's name.
#![tactic(auto)]

mod beside;
mod fault;
mod limit;
mod mode;
mod output;
mod place;

pub use fault::OutputFault;
pub use output::write_output;
