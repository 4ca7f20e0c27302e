//! The code units of descriptors and names (JVMS 4.2 and 4.3).

pub(crate) const OPEN: u16 = b'(' as u16;

pub(crate) const CLOSE: u16 = b')' as u16;

pub(crate) const DOT: u16 = b'.' as u16;

pub(crate) const SLASH: u16 = b'/' as u16;

pub(crate) const SEMICOLON: u16 = b';' as u16;

pub(crate) const LESS: u16 = b'<' as u16;

pub(crate) const GREATER: u16 = b'>' as u16;

pub(crate) const BRACKET: u16 = b'[' as u16;

pub(crate) const BYTE: u16 = b'B' as u16;

pub(crate) const CHAR: u16 = b'C' as u16;

pub(crate) const DOUBLE: u16 = b'D' as u16;

pub(crate) const FLOAT: u16 = b'F' as u16;

pub(crate) const INT: u16 = b'I' as u16;

pub(crate) const LONG: u16 = b'J' as u16;

pub(crate) const OBJECT: u16 = b'L' as u16;

pub(crate) const SHORT: u16 = b'S' as u16;

pub(crate) const VOID: u16 = b'V' as u16;

pub(crate) const BOOLEAN: u16 = b'Z' as u16;
