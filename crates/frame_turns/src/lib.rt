//! Turns of a thread's top call that touch only its frame and the elements of arrays (JVMS 6.5).
#![tactic(auto)]

mod elements;
mod one_turn;
mod turns;

pub use exec;
pub use frames;
pub use heap;
pub use heap::{classes, program};
pub use one_turn::step_once;
pub use trace;
pub use turns::step_consecutive;
