//! The kinds of the elements of arrays, by the names of their classes (JVMS 2.4, 4.4.1).

ghost use Rattle.std.specs.Prelude.{◌≡◌, drop};
ghost use Rattle.jvms_machine.specs.Heap.{component_type};
ghost use Rattle.jvms_file.specs.declared.descriptor.Element.TheVariants as element;
ghost use Rattle.array_elements.specs.Kinds.{kind_of, kind_of_element};
ghost use Rattle.descriptor.specs.Scanning.{element_of};

use descriptor::{ParsedElement, field_in};
use jvms_file::descriptor::Primitive;

/// The kind in which the elements of an array are stored.
#[derive(Clone, Copy, Debug, PartialEq, Eq)]
pub enum Kind {
    Int,
    Byte,
    Boolean,
    Char,
    Short,
    Long,
    Reference,
    /// Floats or doubles, which have no values here.
    Nothing,
}

/// Returns the kind of a primitive type.
fn kind_of_primitive(primitive: Primitive) -> Kind
    ensures { result ≡ kind_of_element (element.Primitive primitive) }
{
    match primitive {
        Primitive::Int => Kind::Int,
        Primitive::Byte => Kind::Byte,
        Primitive::Boolean => Kind::Boolean,
        Primitive::Char => Kind::Char,
        Primitive::Short => Kind::Short,
        Primitive::Long => Kind::Long,
        Primitive::Float | Primitive::Double => Kind::Nothing,
    }
}

/// Returns the kind of a type that is no array's.
fn kind_of_innermost(innermost: ParsedElement<'_>) -> Kind
    ensures { result ≡ kind_of_element (element_of innermost.entry) }
{
    match innermost {
        ParsedElement::Primitive(primitive) => kind_of_primitive(primitive),
        ParsedElement::Object(_) => Kind::Reference,
    }
}

/// Returns the descriptor of an array's components, from the name of its class.
pub fn component(class: &[u16]) -> &[u16]
    ensures { result.now ≡ drop 1 class.now }
{
    match class {
        [] => class,
        [_, component @ ..] => component,
    }
}

/// Returns the kind of the components of an array, from the name of its class.
pub fn kind_of_array(class: &[u16]) -> Kind
    ensures { result ≡ kind_of (component_type class.now) }
{
    match field_in(component(class)) {
        None => Kind::Int,
        Some(spelled) => {
            if spelled.dimensions == 0 {
                kind_of_innermost(spelled.innermost)
            } else {
                Kind::Reference
            }
        }
    }
}
