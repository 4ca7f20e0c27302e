//! The last accesses of a trace, which yield the links of a new event (Velodrome, PLDI 2008, section 4).
#![tactic(auto)]

mod accesses;
mod by_thread;
mod guesses;
mod hashes;
mod indexed;
mod lasts;
pub mod laws;
mod place;
mod slot;
mod table;
mod touch;

pub use accesses::Accesses;
pub use hashes::{hash_of_item, hash_of_touched};
pub use place::share_variable;
pub use touch::thread_of;
