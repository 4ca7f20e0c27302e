//! Finds the fields and methods that instructions name (JVMS 5.1).

ghost use Rattle.std.specs.Prelude.{◌≡◌, IfOk};
ghost use Rattle.jvms_file.specs.ConstantPool.{entry};
ghost use Rattle.jvms_program.specs.Meaning.{field_reference_of, method_reference_of, class_text, name_and_type};
ghost use Rattle.class_tree.specs.Operations.{named_field, named_method};

use crate::texts::Texts;
use jasmin::source::{FieldName, MethodName};
use jvms_file::class_file::Constant;
use std::alloc::AllocError;

/// Returns the field of a class and a NameAndType entry.
fn field_of(texts: &Texts<'_>, class: u16, member: u16) -> Result<FieldName, AllocError>
    ensures { IfOk result (λ f. f ≡ record {
      class = class_text texts.now class;
      name = (name_and_type texts.now member).0;
      descriptor = (name_and_type texts.now member).1;
    }) }
{
    let (name, descriptor) = texts.name_and_type(member);
    Ok(FieldName {
        class: texts.class_name(class)?,
        name: name.share()?,
        descriptor: descriptor.share()?,
    })
}

/// Returns the field that a Fieldref entry names (JVMS 4.4.2).
pub(crate) fn field_name(texts: &Texts<'_>, number: u16) -> Result<FieldName, AllocError>
    ensures { IfOk result
        (λ f. f ≡ named_field (field_reference_of texts.now (entry texts.now number))) }
{
    match texts.entry(number) {
        Some(
            Constant::Field {
                class,
                name_and_type,
            },
        ) => field_of(texts, *class, *name_and_type),
        _ => field_of(texts, 0, 0),
    }
}

/// Returns the method of a class or an interface and a NameAndType entry.
fn method_of(texts: &Texts<'_>, class: u16, member: u16) -> Result<MethodName, AllocError>
    ensures { IfOk result (λ m. m ≡ record {
      class = class_text texts.now class;
      name = (name_and_type texts.now member).0;
      descriptor = (name_and_type texts.now member).1;
    }) }
{
    let (name, descriptor) = texts.name_and_type(member);
    Ok(MethodName {
        class: texts.class_name(class)?,
        name: name.share()?,
        descriptor: descriptor.share()?,
    })
}

/// Returns the method that a Methodref or an InterfaceMethodref entry names (JVMS 4.4.2).
pub(crate) fn method_name(texts: &Texts<'_>, number: u16) -> Result<MethodName, AllocError>
    ensures { IfOk result
        (λ m. m ≡ named_method (method_reference_of texts.now (entry texts.now number))) }
{
    match texts.entry(number) {
        Some(
            Constant::Method {
                class,
                name_and_type,
            },
        ) => method_of(texts, *class, *name_and_type),
        Some(
            Constant::InterfaceMethod {
                class,
                name_and_type,
            },
        ) => method_of(texts, *class, *name_and_type),
        _ => method_of(texts, 0, 0),
    }
}
