//! Finds the places of the labels of a method's code, and decides which of those that are referred to can't be
//! assembled.
#![tactic(auto)]

mod fault;
mod labels;
mod range;
mod undefined;

pub use fault::LabelsFault;
pub use jasmin::source::{CodeItem, MethodLines};
pub use labels::Labels;
pub use range::has_bad_range;
pub use undefined::has_undefined_label;
