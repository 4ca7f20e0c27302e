//! The kinds of the values of types, and their sizes in slots (JVMS 2.11.1).

ghost use Rattle.std.specs.Prelude.{◌≡◌, ◌≤◌};
ghost use Rattle.jvms_file.specs.Descriptors.{units_of};
ghost use Rattle.jvms_machine.specs.Places.{kind_of_element, kind_of_type};

use jvms_file::descriptor::{Element, FieldType, Primitive};
use jvms_file::insn::Kind;
use machine_thread::exec::kind_size;

#[inline(always)]
fn kind_of_element(element: &Element) -> Kind
    ensures { result ≡ kind_of_element element.now }
{
    match element {
        Element::Object(_) => Kind::Reference,
        Element::Primitive(Primitive::Long) => Kind::Long,
        Element::Primitive(Primitive::Float) => Kind::Float,
        Element::Primitive(Primitive::Double) => Kind::Double,
        Element::Primitive(_) => Kind::Int,
    }
}

/// Returns the kind of the values of a type on the operand stack.
#[inline(always)]
pub fn kind_of_type(t: &FieldType) -> Kind
    ensures { result ≡ kind_of_type t.now }
{
    if t.dimensions == 0 {
        kind_of_element(&t.element)
    } else {
        Kind::Reference
    }
}

/// Returns the number of slots of a type's values.
#[inline(always)]
pub fn type_size(t: &FieldType) -> u8
    ensures exact { result ≡ units_of t.now }
    ensures few { result ≤ 2 }
{
    kind_size(kind_of_type(t))
}
