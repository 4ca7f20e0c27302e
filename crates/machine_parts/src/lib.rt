//! The parts of a machine (JVMS 2.5): program, limits, heap, static fields, threads and monitors. Types of decisions,
//! and helpers that instructions of several families share. No turn is decided or applied here.
#![tactic(auto)]

mod constants;
mod decision;
mod exceptions;
mod initialisation;
mod kinds;
mod locks;
mod marks;
mod monitor_use;
mod parts;
mod raising;
mod saved;
mod stored;
mod waiting;

pub use decision::{
    ActionText, Decided, Reached, bad, has_depth, never_seen, next_action, outcome, reaches,
    read_decision,
};
pub use kinds::{kind_of_type, type_size};
pub use locks::{acquire_item, release_item};
pub use machine_thread;
pub use machine_thread::{classes, exec, frame_turns, heap, program};
pub use marks::push_listed;
pub use monitor_use::{Entering, Locking, Unlocking};
pub use parts::Parts;
pub use saved::SavedParts;
pub use stored::{stored_in_component, stored_in_field};
