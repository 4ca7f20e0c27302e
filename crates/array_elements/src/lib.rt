//! The elements of arrays (JVMS 2.4), stored by their kind.
#![tactic(auto)]

mod elements;
mod kind;

pub use descriptor;
pub use elements::{Elements, put};
pub use kind::{Kind, component, kind_of_array};
