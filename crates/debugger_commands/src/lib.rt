//! The commands of the debugger, and the lines that spell them.
#![tactic(auto)]

mod breakpoint;
mod command;
mod fault;
mod laws;
mod line;
#[cfg(test)]
mod tests;
mod word;

pub use breakpoint::Breakpoint;
pub use command::{Command, Place};
pub use fault::DebugFault;
pub use laws::{
    a_session_stays_one, the_hit_before_is_the_nearest, the_next_hit_is_the_nearest,
    words_are_of_one_command,
};
