//! The debugger: sessions that move forward and back along the choices of a run, by checkpoints.
#![tactic(auto)]

mod body;
mod breakpoints;
mod checkpoint;
mod commands;
mod hits;
mod mark;
mod moves;
mod path;
mod pick;
mod places;
mod reach;
mod replay;
mod session;
mod timeline;
mod view;
mod walk;

pub use debugger_commands::{Breakpoint, Command, DebugFault, Place};
pub use session::Session;
pub use view::View;
