//! The bytes of class files (JVMS 4): reads and writes big-endian numbers, and reads consecutive parts.
#![tactic(auto)]

mod counted;
mod read;
mod write;

pub use counted::{Part, parts_of};
pub use read::{bytes_at, u1_at, u2_at, u4_at, u8_at, want};
pub use write::{write_count, write_length, write_u2, write_u4, write_u8};
