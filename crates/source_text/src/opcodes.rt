//! Maps operations to their opcodes (JVMS 7).

ghost use Rattle.std.specs.Prelude.{◌≡◌};
ghost use Rattle.listing_spec.specs.Printed.{opcode_of};

use code_bytes::{
    branch_opcode, class_opcode, field_opcode, invoke_opcode, local_opcode, wide_branch_opcode,
};
use jasmin::source::{BranchWidth, ConstantWidth, Operation};

/// Returns the opcode of an operation, without `wide`.
pub(crate) fn opcode_of(operation: &Operation) -> u8
    ensures { result ≡ opcode_of operation.now }
{
    match operation {
        Operation::Alone(code) => *code,
        Operation::PushByte(_) => 16,
        Operation::PushShort(_) => 17,
        Operation::Constant(ConstantWidth::AsNeeded, _) => 18,
        Operation::Constant(ConstantWidth::Wide, _) => 19,
        Operation::ConstantLong(_) => 20,
        Operation::Local(how, _) => local_opcode(*how),
        Operation::Increment(_, _) => 132,
        Operation::Branch(BranchWidth::Short, how, _) => branch_opcode(*how),
        Operation::Branch(BranchWidth::Wide, how, _) => wide_branch_opcode(*how),
        Operation::Table(_) => 170,
        Operation::Lookup(_) => 171,
        Operation::Field(how, _) => field_opcode(*how),
        Operation::Invoke(how, _) => invoke_opcode(*how),
        Operation::Class(how, _) => class_opcode(*how),
        Operation::NewArray(_) => 188,
        Operation::MultiNewArray(_, _) => 197,
    }
}
