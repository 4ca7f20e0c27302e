//! Why bytes are no class file.

ghost use Rattle.std.specs.Prelude.{◌≡◌};
ghost use Rattle.jvms_file.specs.declared.fault.ReadError.TheVariants.{Memory, Fault};

use std::alloc::{AllocError, AllocFailed};

/// The reason why bytes are refused. Some have a byte: the first missing byte of the input, or the start of an
/// instruction in its method's code.
#[derive(Clone, Copy, Debug, PartialEq, Eq)]
pub enum ClassFault {
    /// C01: the input ends too early. Byte `at` is the first that is missing, so `at` is the input's length.
    Truncated { at: usize },
    /// C02: the first four bytes aren't 0xCAFEBABE.
    Magic,
    /// C03: the major version is not one of 45 to 50.
    Version,
    /// C04: a pool entry with a tag other than the eleven of versions 45 to 50 (JVMS 4.4).
    Tag,
    /// C05: a pool index that names no entry, or an entry of the wrong kind.
    Index,
    /// C06: bytes that aren't Modified UTF-8.
    Utf8,
    /// C07: a malformed name or descriptor, or a descriptor of the wrong sort of member.
    Descriptor,
    /// C08: a parsed attribute whose length isn't that of its content.
    AttributeLength,
    /// C09: a second attribute of a parsed kind: ConstantValue, Code or Exceptions.
    RepeatedAttribute,
    /// C10: a method with a Code attribute that it may not have, or without one that it needs. Also a method of an
    /// interface that is neither abstract nor the initializer.
    CodePresence,
    /// C11: a byte that is no opcode, where an instruction starts.
    Opcode { pc: usize },
    /// C12: an operand that is cut off, or that the instruction doesn't accept.
    Operand { pc: usize },
    /// C13: a branch to a byte at which no instruction starts.
    Target { pc: usize },
    /// C14: an exception handler with a wrong range or target.
    Handler,
    /// C15: a method's code of 0 bytes, or of more than 65,535.
    CodeLength,
    /// C16: bytes after the end of the class.
    Trailing,
    /// C17: two fields or two methods of one name and descriptor.
    RepeatedMember,
}

/// The reason why something was not read: a fault of the bytes, or a lack of memory (C18).
#[derive(Clone, Copy, Debug, PartialEq, Eq)]
pub enum ReadError {
    Fault(ClassFault),
    Memory,
}

impl From<AllocError> for ReadError {
    ghost from_gives = { λ _ error. error ≡ Memory };

    fn from(_error: AllocError) -> ReadError {
        ReadError::Memory
    }
}

impl<T: Drop> From<AllocFailed<T>> for ReadError {
    ghost from_gives = { λ _ error. error ≡ Memory };

    fn from(_error: AllocFailed<T>) -> ReadError {
        ReadError::Memory
    }
}

impl From<ClassFault> for ReadError {
    ghost from_gives = { λ fault error. error ≡ Fault fault };

    fn from(fault: ClassFault) -> ReadError {
        ReadError::Fault(fault)
    }
}
