//! The names of attributes that are parsed (JVMS 4.7), and the descriptors of fields that may have a constant (JVMS
//! 4.3.2).

/// The name `ConstantValue`.
pub const CONSTANT_VALUE: [u16; 13] = [
    b'C' as u16,
    b'o' as u16,
    b'n' as u16,
    b's' as u16,
    b't' as u16,
    b'a' as u16,
    b'n' as u16,
    b't' as u16,
    b'V' as u16,
    b'a' as u16,
    b'l' as u16,
    b'u' as u16,
    b'e' as u16,
];

/// The name `Code`.
pub const CODE: [u16; 4] = [b'C' as u16, b'o' as u16, b'd' as u16, b'e' as u16];

/// The name `Exceptions`.
pub const EXCEPTIONS: [u16; 10] = [
    b'E' as u16,
    b'x' as u16,
    b'c' as u16,
    b'e' as u16,
    b'p' as u16,
    b't' as u16,
    b'i' as u16,
    b'o' as u16,
    b'n' as u16,
    b's' as u16,
];

/// The descriptor of int.
pub(crate) const INT: u16 = b'I' as u16;

/// The descriptor of byte.
pub(crate) const BYTE: u16 = b'B' as u16;

/// The descriptor of char.
pub(crate) const CHAR: u16 = b'C' as u16;

/// The descriptor of short.
pub(crate) const SHORT: u16 = b'S' as u16;

/// The descriptor of boolean.
pub(crate) const BOOLEAN: u16 = b'Z' as u16;

/// The descriptor of long.
pub(crate) const LONG: u16 = b'J' as u16;

/// The descriptor of float.
pub(crate) const FLOAT: u16 = b'F' as u16;

/// The descriptor of double.
pub(crate) const DOUBLE: u16 = b'D' as u16;

/// The descriptor of `java.lang.String`.
pub(crate) const STRING: [u16; 18] = [
    b'L' as u16,
    b'j' as u16,
    b'a' as u16,
    b'v' as u16,
    b'a' as u16,
    b'/' as u16,
    b'l' as u16,
    b'a' as u16,
    b'n' as u16,
    b'g' as u16,
    b'/' as u16,
    b'S' as u16,
    b't' as u16,
    b'r' as u16,
    b'i' as u16,
    b'n' as u16,
    b'g' as u16,
    b';' as u16,
];
