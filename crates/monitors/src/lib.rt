//! The held monitors (JVMS 2.11.10), each with its owner and the number of its entries, and the threads that wait for
//! objects (JLS 17.2).
#![tactic(auto)]

mod monitors;
mod waiters;

pub use jvms_machine::state::{Hold, Wait};
pub use monitors::Monitors;
pub use waiters::Waiters;
