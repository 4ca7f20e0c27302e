//! The first values of the fields of an instance.

ghost use Rattle.std.specs.Prelude.{◌≡◌, ◌++◌, IfOk, OnOk, map, reverse};
ghost use Rattle.std.specs.List.{flat_map};
ghost use Rattle.jvms_program.specs.Resolution.{chain};
ghost use Rattle.jvms_machine.specs.State.{default_of_element, default_value, instance_fields};
ghost use Rattle.heap.specs.FirstValues.{own_values, values_down};
ghost use Rattle.heap.specs.Stored.{name_at};

use jvms_file::descriptor::{Element, FieldType, Primitive};
use jvms_machine::value::Value;
use jvms_program::number::ClassNumber;
use jvms_program::program::Field;
use program::Program;
use program::classes::superclass_name;
use std::alloc::{AllocError, Global};

/// The greatest number of superclasses that are followed by their numbers.
const MOST_UP: usize = 64;

/// Returns the first value of a type that is no array's (JVMS 2.3, 2.4).
fn default_of_element(element: &Element) -> Value
    ensures { result ≡ default_of_element element.now }
{
    match element {
        Element::Object(_) => Value::Null,
        Element::Primitive(Primitive::Float | Primitive::Double) => Value::Unset,
        Element::Primitive(Primitive::Long) => Value::Long(0),
        Element::Primitive(_) => Value::Int(0),
    }
}

/// Returns the first value of a type.
pub(crate) fn default_value(field_type: &FieldType) -> Value
    ensures { result ≡ default_value field_type.now }
{
    if field_type.dimensions == 0 {
        default_of_element(&field_type.element)
    } else {
        Value::Null
    }
}

/// Appends the first values of these fields in reverse order, without the static ones. On an error some may have been
/// appended.
#[tactic(auto, using(crate::proofs::ChainLaws::none_put, crate::proofs::ChainLaws::static_passed, crate::proofs::ChainLaws::own_put, crate::proofs::ChainLaws::all_put))]
fn push_values(fields: &[Field], values: &mut Vec<Value>) -> Result<(), AllocError>
    ensures { OnOk result (values.new.items ≡ values.old.items ++ reverse (own_values fields.now)) }
{
    let mut left = fields.len();
    while left > 0 {
        left -= 1;
        let field = &fields[left];
        if !field.is_static {
            values.push(default_value(field.field_type.get()))?;
        }
    }
    Ok(())
}

/// Appends the first values of the fields of an instance of the class of a name, in reverse order. On an error some may
/// have been appended.
fn put_by_name(program: &Program, name: &[u16], values: &mut Vec<Value>) -> Result<(), AllocError>
    ensures { OnOk result
        (values.new.items ≡ values.old.items ++ flat_map values_down (chain program.now name.now)) }
{
    let mut most = program.classes().len();
    let mut name = name;
    while most > 0 {
        most -= 1;
        let Some(class) = program.class_named(name) else {
            return Ok(());
        };
        push_values(class.fields.as_slice(), values)?;
        let Some(superclass) = superclass_name(class) else {
            return Ok(());
        };
        name = superclass;
    }
    Ok(())
}

/// Appends the first values of the fields of an instance of the class of a number, in reverse order. It follows the
/// numbers of superclasses as far as the program has them. On an error some may have been appended.
fn put_by_number(
    program: &Program,
    class: ClassNumber,
    values: &mut Vec<Value>,
) -> Result<(), AllocError>
    ensures { OnOk result (values.new.items ≡ values.old.items
        ++ flat_map values_down (chain program.now (name_at program.now class))) }
{
    let mut at = class;
    for _ in 0..MOST_UP {
        let Some((own, above)) = program.step_up(at) else {
            break;
        };
        push_values(own.fields.as_slice(), values)?;
        let Some(next) = above else {
            return Ok(());
        };
        at = next;
    }
    put_by_name(program, program.name_at(at), values)
}

/// Returns the first values of the fields of an instance of the class of a number.
#[tactic(auto, using(crate::proofs::ChainLaws::turned))]
pub(crate) fn first_values(
    alloc: Global,
    program: &Program,
    class: ClassNumber,
) -> Result<Vec<Value>, AllocError>
    ensures { IfOk result
        (λ v. v.items ≡ map (λ f. f.1) (instance_fields program.now (name_at program.now class))) }
{
    let mut values = Vec::new(alloc);
    put_by_number(program, class, &mut values)?;
    values.reverse();
    Ok(values)
}
