//! The type of a class by its name, which may be an array's descriptor (JVMS 4.4.1).

ghost use Rattle.std.specs.Prelude.{◌≡◌};
ghost use Rattle.std.specs.Option.{option_map};
ghost use Rattle.jvms_program.specs.Resolution.{class_type};
ghost use Rattle.descriptor.specs.Scanning.{type_of};

use descriptor::{ParsedElement, ParsedType, field_in, is_array_name};

/// Parses a class's name as a type.
pub(crate) fn class_type(name: &[u16]) -> Option<ParsedType<'_>>
    ensures { option_map (λ x. type_of x) result ≡ class_type name.now }
{
    if is_array_name(name) {
        field_in(name)
    } else {
        Some(ParsedType {
            dimensions: 0,
            innermost: ParsedElement::Object(name),
        })
    }
}
