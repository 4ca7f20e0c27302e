//! The UTF-16 code units that operands consist of.

pub(crate) const PLUS: u16 = b'+' as u16;

pub(crate) const MINUS: u16 = b'-' as u16;

pub(crate) const DOT: u16 = b'.' as u16;

pub(crate) const SLASH: u16 = b'/' as u16;

pub(crate) const PARENTHESIS: u16 = b'(' as u16;

pub(crate) const ZERO: u16 = b'0' as u16;

pub(crate) const NINE: u16 = b'9' as u16;

pub(crate) const UPPER_A: u16 = b'A' as u16;

pub(crate) const UPPER_F: u16 = b'F' as u16;

pub(crate) const LOWER_A: u16 = b'a' as u16;

pub(crate) const LOWER_F: u16 = b'f' as u16;

pub(crate) const LOWER_X: u16 = b'x' as u16;
