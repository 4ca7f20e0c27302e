//! Scripts for the debugger: reads lines of commands, and writes the answers.
#![tactic(auto)]

mod answers;
mod fault;
mod line;
mod prompt;
mod script;

pub use crate::answers::{fault_text, view_text};
pub use crate::fault::ScriptFault;
pub use crate::prompt::{NoPrompt, Prompt};
pub use crate::script::{run_prompted, run_script};
