//! The text of an exploration's answer.
#![tactic(auto)]

mod failing;
mod text;
mod within;

pub use exploring;
pub use exploring::explore_jobs;
pub use failing::{failing_line, schedule_text};
pub use text::{answer_text, level_line, push_part};
