//! The commands of the program `jvmx`, over named files, a reader and two writers. They turn the words of a command
//! line into output and an exit status.
#![tactic(auto)]

mod campaigns;
pub mod choices;
pub mod eval;
mod explore;
mod fault;
mod files;
mod joins;
mod limits;
mod lines;
pub mod needing;
mod parts;
pub mod perform;
mod picturing;
mod progress;
mod reading;
mod refusal;
pub mod run;
mod running;
mod screen;
mod shrink;
mod summary;
mod tables;
mod terminal;
pub mod tracing;

pub use fault::RunFault;
pub use files::{FileFault, Files, MOST_BYTES, SystemFiles};
pub use terminal::Terminal;
