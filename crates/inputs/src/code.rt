//! The numbers and names of the faults of class files.

use class_file::{ClassFault, ReadError};
use std::fmt;

/// The number and the name of a fault, C01 to C18, with its place if it has one.
#[derive(Clone, Copy)]
pub(crate) struct ClassCode(pub(crate) ReadError);

impl fmt::Display for ClassCode {
    fn fmt<W: fmt::Write>(&self, f: &mut fmt::Formatter<W>) -> fmt::Result {
        let fault = match self.0 {
            ReadError::Memory => return f.write_str("C18 Memory"),
            ReadError::Fault(fault) => fault,
        };
        match fault {
            ClassFault::Truncated { at } => write!(f, "C01 Truncated at {at}"),
            ClassFault::Magic => f.write_str("C02 Magic"),
            ClassFault::Version => f.write_str("C03 Version"),
            ClassFault::Tag => f.write_str("C04 Tag"),
            ClassFault::Index => f.write_str("C05 Index"),
            ClassFault::Utf8 => f.write_str("C06 Utf8"),
            ClassFault::Descriptor => f.write_str("C07 Descriptor"),
            ClassFault::AttributeLength => f.write_str("C08 AttributeLength"),
            ClassFault::RepeatedAttribute => f.write_str("C09 RepeatedAttribute"),
            ClassFault::CodePresence => f.write_str("C10 CodePresence"),
            ClassFault::Opcode { pc } => write!(f, "C11 Opcode at {pc}"),
            ClassFault::Operand { pc } => write!(f, "C12 Operand at {pc}"),
            ClassFault::Target { pc } => write!(f, "C13 Target at {pc}"),
            ClassFault::Handler => f.write_str("C14 Handler"),
            ClassFault::CodeLength => f.write_str("C15 CodeLength"),
            ClassFault::Trailing => f.write_str("C16 Trailing"),
            ClassFault::RepeatedMember => f.write_str("C17 RepeatedMember"),
        }
    }
}
