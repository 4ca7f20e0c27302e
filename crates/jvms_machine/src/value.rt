//! The value of a local variable, an operand, a field or an array's component (JVMS 2.2, 2.6).

/// A value. A reference is a number, and the return address of `jsr` is an index in a list of instructions. A long
/// takes two slots of the operands and of the local variables: itself and, above it, `Second`.
#[derive(Clone, Copy, Debug, Default, PartialEq, Eq)]
pub enum Value {
    Int(i32),
    Long(i64),
    /// The second slot of a long.
    Second,
    Null,
    Reference(u32),
    ReturnAddress(usize),
    /// No value was stored yet.
    #[default]
    Unset,
}
