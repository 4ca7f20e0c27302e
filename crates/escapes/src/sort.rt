//! The sorts of names.

ghost use Rattle.std.specs.Prelude.{◌≡◌};

use descriptor::{
    is_class_name, is_field_descriptor, is_method_descriptor, is_method_name, is_name,
};

/// The sort of a name (JVMS 4.2), or of a descriptor (JVMS 4.3).
#[derive(Clone, Copy, Debug, PartialEq, Eq)]
pub enum NameSort {
    /// The name of a class or an interface, not of an array.
    Class,
    /// The name of a field.
    Field,
    /// The name of a method, including `<init>` and `<clinit>`.
    Method,
    /// The descriptor of a field.
    FieldDescriptor,
    /// The descriptor of a method, with parameters of at most 255 units.
    MethodDescriptor,
}

impl NameSort {
    ghost use Rattle.escapes.specs.Keys.{is_of};

    /// Decides whether a text is a name of this sort.
    pub(crate) fn is_of(self, text: &[u16]) -> bool
        ensures { result ≡ is_of self text.now }
    {
        match self {
            NameSort::Class => is_class_name(text),
            NameSort::Field => is_name(text),
            NameSort::Method => is_method_name(text),
            NameSort::FieldDescriptor => is_field_descriptor(text),
            NameSort::MethodDescriptor => is_method_descriptor(text),
        }
    }
}
