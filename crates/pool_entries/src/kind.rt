//! The two kinds of methods that entries name.

/// The owner of the method that an entry names (JVMS 4.4.2).
#[derive(Clone, Copy, Debug, PartialEq, Eq)]
pub enum MethodKind {
    /// A method of a class: a Methodref.
    OfClass,
    /// A method of an interface: an InterfaceMethodref.
    OfInterface,
}
