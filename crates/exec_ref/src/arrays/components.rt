//! The component types of arrays (JVMS 2.4), by the names of the arrays' classes.

ghost use Rattle.std.specs.Prelude.{◌≡◌, drop};
ghost use Rattle.jvms_machine.specs.Arrays.{serves, is_reference_kind};
ghost use Rattle.jvms_machine.specs.Heap.{component_class, component_type};
ghost use Rattle.jvms_program.specs.Resolution.{class_exists};
ghost use Rattle.jvms_file.specs.declared.descriptor.Element.TheVariants as element;
ghost use Rattle.descriptor.specs.Scanning.{type_of};
ghost use Rattle.exec_ref.specs.Asked.{of_element};

use descriptor::{ParsedElement, ParsedType, field_in};
use jvms_file::descriptor::Primitive;
use jvms_file::insn::ArrayKind;

/// Returns the name of an array's class without its first bracket.
#[inline(always)]
pub(crate) fn after_bracket(class: &[u16]) -> &[u16]
    ensures { result.now ≡ drop 1 class.now }
{
    match class {
        [] => &[],
        [_, behind @ ..] => behind,
    }
}

/// Returns the component type of an array's class.
#[inline(always)]
pub(crate) fn component_type(class: &[u16]) -> ParsedType<'_>
    ensures { type_of result ≡ component_type class.now }
{
    match field_in(after_bracket(class)) {
        Some(t) => t,
        None => ParsedType {
            dimensions: 0,
            innermost: ParsedElement::Primitive(Primitive::Int),
        },
    }
}

/// Returns the name of the component class of an array of references.
pub(crate) fn component_class(class: &[u16]) -> &[u16]
    ensures { result.now ≡ component_class class.now }
{
    match component_type(class) {
        ParsedType {
            dimensions: 0,
            innermost: ParsedElement::Object(name),
        } => name,
        _ => after_bracket(class),
    }
}

/// Decides whether an array instruction of a kind works on arrays of a primitive type.
#[inline(always)]
fn serves_primitive(kind: ArrayKind, primitive: Primitive) -> bool
    ensures { result ≡ serves kind (of_element (element.Primitive primitive)) }
{
    match kind {
        ArrayKind::Int => primitive == Primitive::Int,
        ArrayKind::Byte => primitive == Primitive::Byte || primitive == Primitive::Boolean,
        ArrayKind::Char => primitive == Primitive::Char,
        ArrayKind::Short => primitive == Primitive::Short,
        ArrayKind::Long => primitive == Primitive::Long,
        ArrayKind::Reference | ArrayKind::Float | ArrayKind::Double => false,
    }
}

/// Decides whether an array instruction of a kind works on arrays with components of a type. That of bytes works on
/// booleans too.
#[inline(always)]
pub(crate) fn serves(kind: ArrayKind, t: ParsedType<'_>) -> bool
    ensures { result ≡ serves kind (type_of t.entry) }
{
    match t.innermost {
        ParsedElement::Primitive(primitive) if t.dimensions == 0 => serves_primitive(
            kind, primitive,
        ),
        _ => is_reference_kind(kind),
    }
}

/// Decides whether an array instruction of a kind loads or stores references.
#[inline(always)]
pub(crate) fn is_reference_kind(kind: ArrayKind) -> bool
    ensures { result ≡ is_reference_kind kind }
{
    matches!(kind, ArrayKind::Reference)
}
