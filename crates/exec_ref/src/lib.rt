//! Instructions on fields, arrays and objects (JVMS 6.5): the decision on each, with nothing changed, and the effects
//! of instructions on the parts of a machine.
#![tactic(auto)]

mod arrays;
mod effects;
mod events;
mod fields;
mod new_objects;
mod objects;

pub use arrays::array_decision;
pub use arrays::many::new_arrays_decision;
pub use effects::reach;
pub use fields::fast::fast_field;
pub use fields::field_decision;
pub use heap;
pub use machine_parts::{classes, exec, frame_turns};
pub use objects::{class_decision, loadable_decision};
