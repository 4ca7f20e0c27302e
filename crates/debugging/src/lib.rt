//! Debugging a program: a script of commands drives a session along the run of a chooser's choices.
#![tactic(auto)]

mod opening;
mod script;
mod stop;

pub use crate::script::debug;
pub use crate::stop::DebugStop;
