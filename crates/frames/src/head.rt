//! The head of a frame.

use jvms_program::number::MethodNumber;
use jvms_program::program::Body;

/// A frame without its values: the called method and its code, the pc, and the numbers of values.
#[derive(Clone, Copy)]
pub struct Head<'p> {
    pub(crate) method: MethodNumber,
    pub(crate) body: &'p Body,
    /// The object whose monitor the call has entered.
    pub(crate) monitor: Option<u32>,
    /// The pc: the index of the next instruction.
    pub(crate) place: usize,
    /// The number of local variables.
    pub(crate) local_count: usize,
    /// The number of operands.
    pub(crate) height: usize,
    /// The number of slots for operands.
    pub(crate) max_stack: usize,
}
