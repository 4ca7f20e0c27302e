//! Fields and methods that instructions name (JVMS 5.1).

ghost use Rattle.std.specs.Prelude.{◌≡◌, IfOk};
ghost use Rattle.jvms_file.specs.ConstantPool.{entry};
ghost use Rattle.jvms_program.specs.Meaning.{field_reference, field_reference_of, method_reference, method_reference_of};

use crate::texts::Texts;
use const_pool::Constant;
use jvms_program::program::{FieldReference, MethodReference};
use std::alloc::AllocError;

/// Returns the field of a class, named by a NameAndType entry.
fn field_reference(texts: &Texts, class: u16, member: u16) -> Result<FieldReference, AllocError>
    ensures { IfOk result (λ r. r ≡ field_reference texts.now class member) }
{
    let (name, descriptor) = texts.name_and_type(member);
    Ok(FieldReference {
        class: texts.class_name(class)?,
        name: name.text.share()?,
        descriptor: descriptor.text.share()?,
        field_type: descriptor.field_type.share()?,
    })
}

/// Returns the field that a Fieldref entry names (JVMS 4.4.2).
pub(crate) fn field_reference_of(texts: &Texts, number: u16) -> Result<FieldReference, AllocError>
    ensures { IfOk result (λ r. r ≡ field_reference_of texts.now (entry texts.now number)) }
{
    match texts.pool().entry(number) {
        Some(
            Constant::Field {
                class,
                name_and_type,
            },
        ) => field_reference(texts, *class, *name_and_type),
        _ => field_reference(texts, 0, 0),
    }
}

/// Returns the method of a class or an interface, named by a NameAndType entry.
fn method_reference(
    is_interface: bool,
    texts: &Texts,
    class: u16,
    member: u16,
) -> Result<MethodReference, AllocError>
    ensures { IfOk result (λ r. r ≡ method_reference is_interface texts.now class member) }
{
    let (name, descriptor) = texts.name_and_type(member);
    Ok(MethodReference {
        is_interface,
        class: texts.class_name(class)?,
        name: name.text.share()?,
        descriptor: descriptor.text.share()?,
        method_type: descriptor.method_type.share()?,
    })
}

/// Returns the method that a Methodref or an InterfaceMethodref entry names (JVMS 4.4.2).
pub(crate) fn method_reference_of(texts: &Texts, number: u16) -> Result<MethodReference, AllocError>
    ensures { IfOk result (λ r. r ≡ method_reference_of texts.now (entry texts.now number)) }
{
    match texts.pool().entry(number) {
        Some(
            Constant::Method {
                class,
                name_and_type,
            },
        ) => method_reference(false, texts, *class, *name_and_type),
        Some(
            Constant::InterfaceMethod {
                class,
                name_and_type,
            },
        ) => method_reference(true, texts, *class, *name_and_type),
        _ => method_reference(false, texts, 0, 0),
    }
}
