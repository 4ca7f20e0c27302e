//! Texts of a machine's parts, as the debugger writes them.
#![tactic(auto)]

mod chain;
mod class;
mod fields;
mod object;
mod outcome;
mod output;
mod place;
mod thread_frames;
mod threads;
mod value;

pub use crate::class::class_text;
pub use crate::object::object_text;
pub use crate::outcome::{outcome_text, status_name};
pub use crate::output::output_text;
pub use crate::place::{place_text, put_place};
pub use crate::thread_frames::frames_text;
pub use crate::threads::{thread_count, threads_text};
