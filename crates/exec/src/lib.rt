//! Instructions that touch one frame alone: arithmetic, the operand stack, local variables, jumps and switches (JVMS
//! 6.5). Each is decided first, with nothing changed, and its action is then applied.
#![tactic(auto)]

mod actions;
mod arithmetic;
mod branches;
mod constants;
mod decisions;
mod locals;
mod long_turns;
mod longs;
mod places;
mod profile;
mod stack;
mod switches;
mod turn;

pub use actions::{apply, apply_open};
pub use decisions::has_depth;
pub use places::{element_size, is_of_kind, kind_of_elements, kind_size, top_value, value_size};
pub use profile::{
    is_outside_array, is_outside_class, is_outside_method, is_outside_type, is_outside_use,
};
pub use turn::{decide, is_beyond, step, step_by_instruction, step_other};
