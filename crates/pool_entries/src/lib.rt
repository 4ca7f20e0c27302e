//! The names, members and constants of a class that is being written, as numbers of entries of its constant
//! pool (JVMS 4.4), by first use.
#![tactic(auto)]

mod entries;
mod fault;
mod kind;
pub mod laws;
mod members;
mod text;

pub use entries::Entries;
pub use fault::EntryFault;
pub use kind::MethodKind;
