//! Programs (JVMS 5.3): their classes, with tables for frequent look-ups.
#![tactic(auto)]

mod list;
mod named;
mod tables;

pub use classes;
pub use classes::{FieldName, Slot};
pub use list::Program;
pub use tables::first_texts::constant_text;
