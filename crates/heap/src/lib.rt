//! The heap of a machine (JVMS 2.4, 2.7). Its objects are stored so that a field is found by its slot, an element by
//! its array's own kind, and a string by its text.
#![tactic(auto)]

mod arrays;
mod copying;
mod first_values;
mod heap;
pub mod laws;
mod making;
mod named_fields;
mod numbered_fields;
mod object_class;
mod opening;
mod primitive_arrays;
mod saved;
mod statics;
mod stored_object;
mod texts;

pub use heap::Heap;
pub use object_class::ObjectClass;
pub use program;
pub use program::classes;
pub use saved::SavedHeap;
pub use statics::Statics;
