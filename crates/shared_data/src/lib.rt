//! The containers of shared data: lists, reference-counted values, and boxed values. Contracts see the values
//! themselves.
#![tactic(auto)]

pub mod boxed;
pub mod items;
pub mod shared;
pub mod surrogates;
pub mod texts;
