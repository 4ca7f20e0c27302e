//! The numbers of classes, methods and fields.

/// The number of a class: its place in the program's list.
pub type ClassNumber = usize;

/// The number of a method: that of its class, and its own place in the class's list.
#[derive(Clone, Copy, Debug, PartialEq, Eq)]
pub struct MethodNumber {
    pub class: ClassNumber,
    pub method: usize,
}

/// The number of a field: that of its class, and its own place in the class's list.
#[derive(Clone, Copy, Debug, PartialEq, Eq)]
pub struct FieldNumber {
    pub class: ClassNumber,
    pub field: usize,
}
