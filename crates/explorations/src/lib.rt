//! The exploration of a program from class files and sources, and the text of its answer.
#![tactic(auto)]

mod fault;
mod running;
mod writing;

pub use exploration_text::exploring::{
    Answer, Bounds, FailingRun, Fate, Level, LevelRuns, Observer, Part, Plan, Team,
};
pub use exploration_text::{answer_text, schedule_text};
pub use fault::ExplorationFault;
pub use writing::write_exploration;
