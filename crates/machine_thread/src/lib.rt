//! A thread of the machine (JVMS 2.5): its stack of frames, and the changes that a turn applies to the thread itself.
#![tactic(auto)]

mod stack;
mod stack_frame;
mod thread;

pub use frame_turns;
pub use frame_turns::{classes, exec, frames, heap, program};
pub use thread::Thread;
