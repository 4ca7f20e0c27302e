//! An instruction with its byte.

use jvms_file::insn::Insn;

/// An instruction with the byte at which it starts. Its targets are bytes.
#[derive(Drop)]
pub(crate) struct InsnAt {
    pub(crate) pc: u32,
    pub(crate) insn: Insn,
}
