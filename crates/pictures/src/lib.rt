//! Pictures of a trace: its events by thread and time, its transactions, and the cycle of its verdict.
#![tactic(auto)]

mod arrows;
mod conflicts;
mod escaped;
mod graph;
mod labels;
mod layout;
mod rows;
mod sketches;
mod titles;
mod vector;

pub use conflicts::conflict;
pub use graph::dot;
pub use rows::Row;
pub use sketches::{Sketch, sketch_of};
pub use vector::svg;
