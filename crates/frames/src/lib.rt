//! The frame of a call (JVMS 2.6): its pc, its local variables and its operand stack. A frame has room for its operands
//! from the start, so only making or copying one takes memory.
#![tactic(auto)]

mod frame;
mod head;
mod open;
mod seen;
mod work;

pub use frame::Frame;
pub use head::Head;
pub use seen::SeenFrame;
pub use work::OpenWork;
