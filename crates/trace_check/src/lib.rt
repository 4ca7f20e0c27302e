//! The verdict on a trace's text: whether the methods that a specification calls atomic were.
#![tactic(auto)]

mod checking;
mod details;
mod fault;
mod feeding;
mod saying;

pub use checking::check;
pub use details::Details;
pub use fault::CheckFault;
pub use saying::{Checked, fed_text};
