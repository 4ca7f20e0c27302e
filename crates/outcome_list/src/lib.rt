//! Outcomes of turns in a compact form.
#![tactic(auto)]

mod kind;
mod list;
mod names;

pub use list::OutcomeList;
