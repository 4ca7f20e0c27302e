//! Classes and members by their names.

ghost use Rattle.std.specs.Prelude.{◌≡◌, ◌&&◌, IfSome, option_copied, slice_get};
ghost use Rattle.std.specs.Option.{option_map};
ghost use Rattle.jvms_file.specs.Names.{same_text};
ghost use Rattle.jvms_program.specs.Program.{class_named, class_number, declared_field_number, declared_number, method_at};
ghost use Rattle.classes.specs.Places.{class_place, field_at, field_number_at, method_number_at};

use crate::list::Classes;
use descriptor::same_text;
use jvms_program::number::{ClassNumber, FieldNumber, MethodNumber};
use jvms_program::program::{Class, Field, Method};

/// Returns the number of a class's method of this name and descriptor: its place in the class's list.
pub fn declared_number(class: &Class, name: &[u16], descriptor: &[u16]) -> Option<usize>
    ensures { result ≡ declared_number class.now name.now descriptor.now }
{
    class.methods.number_of(name, descriptor)
}

/// Decides whether a field has this name and descriptor.
pub(crate) fn is_field(field: &Field, name: &[u16], descriptor: &[u16]) -> bool
    ensures { result
        ≡ (same_text field.now.name name.now && same_text field.now.descriptor descriptor.now) }
{
    same_text(field.name.as_slice(), name) && same_text(field.descriptor.as_slice(), descriptor)
}

/// Returns the number of a class's field of this name and descriptor: its place in the class's list.
pub fn declared_field_number(class: &Class, name: &[u16], descriptor: &[u16]) -> Option<usize>
    ensures { result ≡ declared_field_number class.now name.now descriptor.now }
{
    class.fields.number_of(name, descriptor)
}

/// Returns the class of a name, with its number.
#[tactic(auto, using(crate::proofs::PlaceLaws::found_by_number))]
pub fn numbered<'a>(program: &'a Classes, name: &[u16]) -> Option<(ClassNumber, &'a Class)>
    ensures class { option_map (λ found. found.1.now) result ≡ class_named program.now name.now }
    ensures number { option_map (λ found. found.0) result ≡ class_number program.now name.now }
    ensures place { IfSome result (λ found. found.0 ≡ class_place program.now found.1.now) }
{
    let number = program.class_number(name)?;
    let class = program.class(number)?;
    Some((number, class))
}

/// Returns the method of a number.
pub(crate) fn method_of(classes: &[Class], n: MethodNumber) -> Option<&Method>
    ensures { option_copied result ≡ method_at classes.now n }
{
    let class = classes.get(n.class)?;
    class.methods.as_slice().get(n.method)
}

/// Returns the field of a number.
pub(crate) fn field_at(program: &Classes, n: FieldNumber) -> Option<&Field>
    ensures { option_copied result ≡ field_at program.now n }
{
    let class = program.class(n.class)?;
    class.fields.as_slice().get(n.field)
}

/// Returns the number of the method that a search found: that of its class, and its own in that class.
pub(crate) fn method_number_at(place: Option<(usize, usize)>) -> Option<MethodNumber>
    ensures { result ≡ option_map method_number_at place }
{
    let (class, method) = place?;
    Some(MethodNumber { class, method })
}

/// Returns the number of the field that a search found: that of its class, and its own in that class.
pub(crate) fn field_number_at(place: Option<(usize, usize)>) -> Option<FieldNumber>
    ensures { result ≡ option_map field_number_at place }
{
    let (class, field) = place?;
    Some(FieldNumber { class, field })
}
