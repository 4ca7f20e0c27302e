//! The forms of texts (JVMS 4.2, 4.3, 4.4.1). They are determined once for each text, and not once for each entry that
//! names it.

ghost use Rattle.std.specs.Prelude.{◌≡◌};
ghost use Rattle.jvms_file.specs.ConstantPool.{begins_as_method};
ghost use Rattle.const_pool.specs.Texts.{forms_of, method_units_of};

use descriptor::{is_class_entry_name, is_field_descriptor, is_method_name, is_name, method_units};

/// The forms that a text has.
#[derive(Clone, Copy, Debug, PartialEq, Eq)]
pub struct Forms {
    /// True if it is a field's name.
    pub name: bool,
    /// True if it is a method's name.
    pub method_name: bool,
    /// True if it is the name of a class's entry: a class's name, or an array's descriptor.
    pub class_entry_name: bool,
    /// True if it is a field's descriptor.
    pub field_descriptor: bool,
    /// True if it begins as a method's descriptor does.
    pub method_sort: bool,
    /// The units of the parameters, at most 255, if it is a method's descriptor (JVMS 4.3.3).
    pub method_units: Option<u8>,
}

/// The first unit of a method's descriptor (JVMS 4.3.3).
const PARENTHESIS: u16 = b'(' as u16;

/// Decides whether a text begins as a method's descriptor does.
pub(crate) fn begins_as_method(text: &[u16]) -> bool
    ensures { result ≡ begins_as_method text.now }
{
    matches!(text, [PARENTHESIS, ..])
}

/// Returns the units of a method's parameters, if the text is a method's descriptor.
fn units_of(text: &[u16]) -> Option<u8>
    ensures { result ≡ method_units_of text.now }
{
    let units = method_units(text)?;
    Some(units as u8)
}

/// Returns the forms of a text.
pub(crate) fn forms_of(text: &[u16]) -> Forms
    ensures { result ≡ forms_of text.now }
{
    Forms {
        name: is_name(text),
        method_name: is_method_name(text),
        class_entry_name: is_class_entry_name(text),
        field_descriptor: is_field_descriptor(text),
        method_sort: begins_as_method(text),
        method_units: units_of(text),
    }
}
