//! Writes class files (JVMS 4). Each part has a function that appends its bytes.

mod attribute;
mod class;
mod code;
mod member;

pub(crate) use class::write_class;
