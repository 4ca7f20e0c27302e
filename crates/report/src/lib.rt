//! Texts for readers: verdicts on traces, and the debugger's answers to a script.
#![tactic(auto)]

mod actor;
mod cycle;
mod events;
mod fed_trace;
mod serial;
mod verdict;

pub use cycle::explain;
pub use debugger_script::{
    NoPrompt, Prompt, ScriptFault, fault_text, run_prompted, run_script, view_text,
};
pub use events::{first, is_event};
pub use serial::serial_lines;
pub use verdict::verdict_line;
