//! Fields (JVMS 4.5).

ghost use Rattle.std.specs.Prelude.{◌≡◌, IfOk, map};
ghost use Rattle.jvms_program.specs.Meaning.{constant_of, field_of};

use crate::loadable::loadable_of;
use crate::texts::Texts;
use descriptor::Flags;
use jvms_file::class_file::{FieldAttribute, FieldInfo};
use jvms_program::members::Members;
use jvms_program::program::{Field, Loadable};
use std::alloc::{AllocError, Global};

/// Returns the constant that the first ConstantValue among attributes names (JVMS 4.7.2), if there is one.
fn constant_of(texts: &Texts, attributes: &[FieldAttribute]) -> Result<Option<Loadable>, AllocError>
    ensures { IfOk result (λ l. l ≡ constant_of texts.now attributes.now) }
{
    let mut rest = attributes;
    while let [attribute, others @ ..] = rest {
        if let FieldAttribute::ConstantValue { name: _, value } = attribute {
            return Ok(Some(loadable_of(texts, *value)?));
        }
        rest = others;
    }
    Ok(None)
}

/// Returns a field with its texts. The fields of an interface count as static.
fn field_of(texts: &Texts, in_interface: bool, info: &FieldInfo) -> Result<Field, AllocError>
    ensures { IfOk result (λ f. f ≡ field_of texts.now in_interface info.now) }
{
    let flags = Flags::of_access(info.access);
    let descriptor = texts.typed_text(info.descriptor);
    Ok(Field {
        name: texts.text(info.name)?,
        descriptor: descriptor.text.share()?,
        field_type: descriptor.field_type.share()?,
        is_static: in_interface || flags.is_static(),
        is_private: flags.is_private(),
        constant: constant_of(texts, info.attributes.as_slice())?,
    })
}

/// Returns the fields of a class or an interface, in order.
pub(crate) fn fields_of(
    alloc: Global,
    texts: &Texts,
    in_interface: bool,
    infos: &[FieldInfo],
) -> Result<Members<Field>, AllocError>
    ensures { IfOk result (λ fs. fs ≡ map (field_of texts.now in_interface) infos.now) }
{
    let mut fields = Vec::with_capacity(alloc, infos.len())?;
    for info in infos {
        fields.push(field_of(texts, in_interface, info)?)?;
    }
    Members::from_vec(alloc, fields)
}
