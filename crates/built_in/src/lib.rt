//! The classes that every program has, and their names.
#![tactic(auto)]

mod all;
mod classes;
mod code;
mod members;
mod throwables;

pub use all::{built_in_classes, is_built_in};
