//! The numbers of units of parameters (JVMS 4.3.3).

ghost use Rattle.std.specs.Prelude.{◌≡◌};
ghost use Rattle.jvms_file.specs.Descriptors.{units_of, parameter_units};
ghost use Rattle.descriptor.specs.Scanning.{type_of};

use crate::scan::{ParsedElement, ParsedType};
use jvms_file::descriptor::{Element, FieldType, MethodType, Primitive};

/// Returns the number of units of a parameter of this type.
fn units_of(t: &FieldType) -> usize
    ensures { result ≡ units_of t.now }
{
    match t.element {
        Element::Primitive(Primitive::Long | Primitive::Double) if t.dimensions == 0 => 2,
        _ => 1,
    }
}

/// Returns the number of units of a parameter of this parsed type.
pub(crate) fn spelled_units(spelled: ParsedType<'_>) -> usize
    ensures { result ≡ units_of (type_of spelled.entry) }
{
    match spelled.innermost {
        ParsedElement::Primitive(Primitive::Long | Primitive::Double) if spelled.dimensions == 0 =>
            2,
        _ => 1,
    }
}

/// Returns the number of units of a method's parameters, without the object that it is called on.
pub fn parameter_units(t: &MethodType) -> usize
    ensures { result ≡ parameter_units t.now }
{
    let mut units = 0;
    for parameter in t.parameters.as_slice() {
        units += units_of(parameter);
    }
    units
}
