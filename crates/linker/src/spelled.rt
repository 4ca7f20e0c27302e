//! A text of a constant pool, with the types that it is the descriptor of. Each is made once, and shared by all that
//! name it.

ghost use Rattle.std.specs.Prelude.{◌≡◌, [], map, IfOk};
ghost use Rattle.std.specs.Option.{option_map};
ghost use Rattle.jvms_file.specs.ConstantPool.{utf8_of};
ghost use Rattle.jvms_file.specs.Descriptors.{field_type as field_type_or_int, method_type as method_type_or_none};
ghost use Rattle.linker.specs.Spelled.{typed_text, typed_text_of};

use const_pool::Constant;
use descriptor::{DescriptorFault, field_type, method_type, parse_field, parse_method};
use jvms_file::descriptor::{FieldType, MethodType};
use shared_data::items::Items;
use shared_data::shared::{Shared, Text};
use shared_data::texts::copied_text;
use std::alloc::{AllocError, Global};

/// A text and its types. A text that is no descriptor has the types of the empty text.
#[derive(Drop)]
pub(crate) struct TypedText {
    pub(crate) text: Text,
    pub(crate) field_type: Shared<FieldType>,
    pub(crate) method_type: Shared<MethodType>,
}

/// Returns the empty text with its types.
pub(crate) fn spelled_by_nothing(alloc: Global) -> Result<TypedText, AllocError>
    ensures { IfOk result (λ s. s ≡ typed_text []) }
{
    let field = field_type(alloc, &[])?;
    let method = method_type(alloc, &[])?;
    Ok(TypedText {
        text: Shared::new(alloc, Items::new(alloc))?,
        field_type: Shared::new(alloc, field)?,
        method_type: Shared::new(alloc, method)?,
    })
}

/// Parses a text as a field's type, or returns `other` if it spells none.
#[tactic(auto, using(crate::proofs::SpelledTexts::no_field))]
fn field_type_of(
    alloc: Global,
    text: &[u16],
    other: &Shared<FieldType>,
) -> Result<Shared<FieldType>, AllocError>
    requires { other.now ≡ field_type_or_int [] }
    ensures { IfOk result (λ t. t ≡ field_type_or_int text.now) }
{
    match parse_field(alloc, text) {
        Ok(spelled) => Shared::new(alloc, spelled),
        Err(DescriptorFault::Malformed) => other.share(),
        Err(DescriptorFault::Memory) => Err(AllocError),
    }
}

/// Parses a text as a method's type, or returns `other` if it spells none.
#[tactic(auto, using(crate::proofs::SpelledTexts::no_method))]
fn method_type_of(
    alloc: Global,
    text: &[u16],
    other: &Shared<MethodType>,
) -> Result<Shared<MethodType>, AllocError>
    requires { other.now ≡ method_type_or_none [] }
    ensures { IfOk result (λ t. t ≡ method_type_or_none text.now) }
{
    match parse_method(alloc, text) {
        Ok(spelled) => Shared::new(alloc, spelled),
        Err(DescriptorFault::Malformed) => other.share(),
        Err(DescriptorFault::Memory) => Err(AllocError),
    }
}

/// Returns a text with its types.
fn typed_text_by(alloc: Global, text: &[u16], nothing: &TypedText) -> Result<TypedText, AllocError>
    requires { nothing.now ≡ typed_text [] }
    ensures { IfOk result (λ s. s ≡ typed_text text.now) }
{
    let field_type = field_type_of(alloc, text, &nothing.field_type)?;
    let method_type = method_type_of(alloc, text, &nothing.method_type)?;
    Ok(TypedText {
        text: copied_text(alloc, text)?,
        field_type,
        method_type,
    })
}

/// Returns the text of an entry with its types, if it is a Utf8.
fn typed_text_of(
    alloc: Global,
    entry: &Constant,
    nothing: &TypedText,
) -> Result<Option<TypedText>, AllocError>
    requires { nothing.now ≡ typed_text [] }
    ensures { IfOk result (λ s. s ≡ typed_text_of entry.now) }
{
    match entry {
        Constant::Utf8(text) => Ok(Some(typed_text_by(alloc, text.as_slice(), nothing)?)),
        _ => Ok(None),
    }
}

/// Returns the texts of entries with their types, in order.
pub(crate) fn all_typed_texts(
    alloc: Global,
    entries: &[Constant],
    nothing: &TypedText,
) -> Result<Vec<Option<TypedText>>, AllocError>
    requires { nothing.now ≡ typed_text [] }
    ensures { IfOk result (λ v. v.items ≡ map typed_text_of entries.now) }
{
    let mut all = Vec::with_capacity(alloc, entries.len())?;
    for entry in entries {
        all.push(typed_text_of(alloc, entry, nothing)?)?;
    }
    Ok(all)
}
