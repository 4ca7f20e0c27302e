//! Breakpoints.

use jvms_program::number::MethodNumber;

/// A breakpoint: an instruction of a method.
#[derive(Clone, Copy, Debug, PartialEq, Eq)]
pub struct Breakpoint {
    /// Its number, from 1. No number is used again.
    pub number: u32,
    pub method: MethodNumber,
    /// The number of the instruction, from 0.
    pub instruction: u32,
}
