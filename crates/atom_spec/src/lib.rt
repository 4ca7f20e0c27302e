//! Specifications: reads which methods are to be atomic, and decides it for a method.
#![tactic(auto)]

mod fault;
mod laws;
mod line;
mod pattern;
mod reading;
mod spec;
mod table;
mod texts;

pub use fault::SpecFault;
pub use laws::{
    a_specification_has_no_fault, a_text_has_one_first_fault, a_text_is_of_one_specification,
};
pub use spec::Spec;
pub use velodrome::specification::{Pattern, SpecificationLine};
