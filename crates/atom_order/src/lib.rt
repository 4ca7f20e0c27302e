//! The order of transactions, and the links between those that open ones reach (Velodrome, PLDI 2008, section 4).
#![tactic(auto)]

mod distances;
mod graph;
mod link;
mod linked_order;
mod links;
mod numbers;
mod slots;

pub use graph::Graph;
pub use link::{Closing, Link};
pub use links::Links;
