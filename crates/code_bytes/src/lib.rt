//! Assembles the code of a method (JVMS 4.7.3) from the method's lines and the pool entries that they name. The code
//! has the bytes of each instruction, where each starts, and the instructions with their targets as places.
#![tactic(auto)]

mod bytes;
mod code;
mod handlers;
mod insns;
mod numbers;
mod opcodes;
mod operation;
mod sizes;
mod starts;
mod steps;
mod switches;
mod targets;

pub use assembly::fault::AsmFault;
pub use code::{code_within, has_code};
pub use jasmin::source::MethodLines;
pub use jvms_file::class_file::Code;
pub use opcodes::{
    branch_opcode, class_opcode, field_opcode, invoke_opcode, local_opcode, wide_branch_opcode,
};
pub use source_labels::Labels;
