//! The form of a value in a field or in an array element (JVMS 2.3).

ghost use Rattle.std.specs.Prelude.{◌≡◌};
ghost use Rattle.jvms_file.specs.declared.descriptor.Element.TheVariants as element;
ghost use Rattle.jvms_machine.specs.Heap.{narrowed_to, stored_as};
ghost use Rattle.descriptor.specs.Scanning.{type_of};

use descriptor::{ParsedElement, ParsedType};
use jvm_num::narrow;
use jvms_file::descriptor::{Element, FieldType, Primitive};
use jvms_file::insn::Narrow;
use jvms_machine::value::Value;

/// Returns an int narrowed to a primitive type.
#[inline(always)]
fn narrowed_to(primitive: Primitive, n: i32) -> i32
    ensures { result ≡ narrowed_to (element.Primitive primitive) n }
{
    match primitive {
        Primitive::Byte => narrow(Narrow::Byte, n),
        Primitive::Char => narrow(Narrow::Char, n),
        Primitive::Short => narrow(Narrow::Short, n),
        Primitive::Boolean => narrow(Narrow::Boolean, n),
        Primitive::Int | Primitive::Long | Primitive::Float | Primitive::Double => n,
    }
}

/// Returns a value in the form that a field of a type stores.
#[inline(always)]
pub fn stored_in_field(t: &FieldType, value: Value) -> Value
    ensures { result ≡ stored_as t.now value }
{
    match (value, &t.element) {
        (Value::Int(n), Element::Primitive(primitive)) if t.dimensions == 0 => {
            Value::Int(narrowed_to(*primitive, n))
        }
        _ => value,
    }
}

/// Returns a value in the form that an array with components of a type stores.
#[inline(always)]
pub fn stored_in_component(t: ParsedType<'_>, value: Value) -> Value
    ensures { result ≡ stored_as (type_of t.entry) value }
{
    match (value, t.innermost) {
        (Value::Int(n), ParsedElement::Primitive(primitive)) if t.dimensions == 0 => {
            Value::Int(narrowed_to(primitive, n))
        }
        _ => value,
    }
}
