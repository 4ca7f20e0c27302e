//! References of objects by their texts.
#![tactic(auto)]

mod index;

pub use index::Index;
