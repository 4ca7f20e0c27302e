//! Runs by choices: the turns that a chooser gives, and how a run ends.
#![tactic(auto)]

mod counted;
mod ending;
mod kept;
mod turn;
mod turns;

pub use counted::count_turns;
pub use ending::{Ending, Uncaught, ending_after, run_to_end, uncaught_threads};
pub use machine;
pub use schedule;
pub use turns::{Turns, take_turns};
