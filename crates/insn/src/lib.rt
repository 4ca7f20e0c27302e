//! Reads the code of a method (JVMS 4.7.3, 6.5) from bytes, as instructions whose targets are places.
#![tactic(auto)]

mod arrays;
mod branches;
mod code;
mod constants;
mod encoding;
mod handlers;
mod locals;
mod located;
mod members;
mod operands;
mod pads;
mod places;
mod starts;
mod switches;
mod targets;

pub use code::{Decoded, decode};
pub use encoding::encode;
pub use handlers::handler;
pub use jvms_file::insn::{Insn, Opcode};
pub use operands::insn_at;
pub use pads::layout;
pub use starts::Starts;
pub use switches::pad_length;
