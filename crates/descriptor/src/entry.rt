//! The names of class entries (JVMS 4.4.1).

ghost use Rattle.std.specs.Prelude.{◌≡◌, ◌≤◌, length};
ghost use Rattle.jvms_file.specs.Descriptors.{is_array_name, is_class_entry_name, dimensions_of};

use crate::field::is_field_descriptor;
use crate::letters::BRACKET;
use crate::names::is_class_name;

/// Decides whether the name of a class entry is that of an array.
pub fn is_array_name(text: &[u16]) -> bool
    ensures { result ≡ is_array_name text.now }
{
    matches!(text, [BRACKET, ..])
}

/// Decides whether a text is the name of a class entry: a class's name, or an array's descriptor.
pub fn is_class_entry_name(text: &[u16]) -> bool
    ensures { result ≡ is_class_entry_name text.now }
{
    if is_array_name(text) {
        is_field_descriptor(text)
    } else {
        is_class_name(text)
    }
}

/// Returns the number of dimensions of the class with this name, or 0 if it is no array.
pub fn dimensions_of(text: &[u16]) -> usize
    ensures exact { result ≡ dimensions_of text.now }
    ensures within { result ≤ length text.now }
{
    text.iter().take_while(|unit| **unit == BRACKET).count()
}
