//! Joins what the parts of an exploration found.
#![tactic(auto)]

mod alike;
mod count;
mod fault;
mod found;
mod joined;
mod joining;
mod levels;
mod numbers;
mod order;
mod part;
mod reading;
mod text;

pub use fault::{JoinFault, PartFault};
pub use found::Found;
pub use joined::Joined;
pub use joining::join;
pub use part::PartText;
pub use reading::read_part;
pub use text::joined_text;
