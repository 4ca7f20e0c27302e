//! Maps instructions with operands to their opcodes (JVMS 7).

ghost use Rattle.std.specs.Prelude.{◌≡◌, ◌≤◌};
ghost use Rattle.assembly.specs.Opcodes.{kind_number, local_opcode, comparison_number, branch_opcode, wide_branch_opcode, field_opcode, invoke_opcode, class_opcode, array_type_number};

use jvms_file::insn::{ArrayType, Branch, ClassUse, Comparison, FieldUse, Invoke, Kind, LocalUse};

/// Returns the position of a kind among the opcodes of loads, and among those of stores.
fn kind_number(kind: Kind) -> u8
    ensures exact { result ≡ kind_number kind }
    ensures few { result ≤ 4 }
{
    match kind {
        Kind::Int => 0,
        Kind::Long => 1,
        Kind::Float => 2,
        Kind::Double => 3,
        Kind::Reference => 4,
    }
}

/// Returns the opcode of iload to aload, of istore to astore, or of ret.
pub fn local_opcode(how: LocalUse) -> u8
    ensures { result ≡ local_opcode how }
{
    match how {
        LocalUse::Load(kind) => 21 + kind_number(kind),
        LocalUse::Store(kind) => 54 + kind_number(kind),
        LocalUse::Return => 169,
    }
}

/// Returns the position of a comparison among the opcodes of branches that compare.
fn comparison_number(comparison: Comparison) -> u8
    ensures exact { result ≡ comparison_number comparison }
    ensures few { result ≤ 5 }
{
    match comparison {
        Comparison::Equal => 0,
        Comparison::NotEqual => 1,
        Comparison::Less => 2,
        Comparison::GreaterOrEqual => 3,
        Comparison::Greater => 4,
        Comparison::LessOrEqual => 5,
    }
}

/// Returns the opcode of a branch with an offset of two bytes.
pub fn branch_opcode(how: Branch) -> u8
    ensures { result ≡ branch_opcode how }
{
    match how {
        Branch::IfZero(comparison) => 153 + comparison_number(comparison),
        Branch::IfInts(comparison) => 159 + comparison_number(comparison),
        Branch::IfSame => 165,
        Branch::IfDifferent => 166,
        Branch::Goto => 167,
        Branch::Subroutine => 168,
        Branch::IfNull => 198,
        Branch::IfNonNull => 199,
    }
}

/// Returns the opcode of a branch with an offset of four bytes: goto_w or jsr_w. The value for any other branch isn't
/// used.
pub fn wide_branch_opcode(how: Branch) -> u8
    ensures { result ≡ wide_branch_opcode how }
{
    match how {
        Branch::Goto => 200,
        Branch::IfZero(_)
        | Branch::IfInts(_)
        | Branch::IfSame
        | Branch::IfDifferent
        | Branch::Subroutine
        | Branch::IfNull
        | Branch::IfNonNull => 201,
    }
}

/// Returns the opcode of getstatic to putfield.
pub fn field_opcode(how: FieldUse) -> u8
    ensures { result ≡ field_opcode how }
{
    match how {
        FieldUse::GetStatic => 178,
        FieldUse::PutStatic => 179,
        FieldUse::Get => 180,
        FieldUse::Put => 181,
    }
}

/// Returns the opcode of invokevirtual to invokeinterface.
pub fn invoke_opcode(how: Invoke) -> u8
    ensures { result ≡ invoke_opcode how }
{
    match how {
        Invoke::Virtual => 182,
        Invoke::Special => 183,
        Invoke::Static => 184,
        Invoke::Interface => 185,
    }
}

/// Returns the opcode of new, anewarray, checkcast or instanceof.
pub fn class_opcode(how: ClassUse) -> u8
    ensures { result ≡ class_opcode how }
{
    match how {
        ClassUse::New => 187,
        ClassUse::NewArray => 189,
        ClassUse::CheckCast => 192,
        ClassUse::InstanceOf => 193,
    }
}

/// Returns the number of a component type (JVMS table 6.5.newarray-A).
pub(crate) fn array_type_number(component: ArrayType) -> u8
    ensures { result ≡ array_type_number component }
{
    match component {
        ArrayType::Boolean => 4,
        ArrayType::Char => 5,
        ArrayType::Float => 6,
        ArrayType::Double => 7,
        ArrayType::Byte => 8,
        ArrayType::Short => 9,
        ArrayType::Int => 10,
        ArrayType::Long => 11,
    }
}
