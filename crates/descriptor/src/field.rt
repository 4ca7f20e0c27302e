//! Field descriptors (JVMS 4.3.2).

ghost use Rattle.std.specs.Prelude.{◌≡◌, IfOk, is_some, Some};
ghost use Rattle.jvms_file.specs.declared.descriptor.FieldType.{FieldType};
ghost use Rattle.jvms_file.specs.Descriptors.{field_type_of, SpellsFieldType};
ghost use Rattle.descriptor.specs.Reading.{IsRead};
ghost use Rattle.descriptor.specs.Scanning.{element_of, type_of};

use crate::fault::DescriptorFault;
use crate::scan::{ParsedElement, ParsedType, field_in};
use jvms_file::descriptor::{Element, FieldType};
use shared_data::items::Items;
use std::alloc::{AllocError, Global};

/// Returns the type with its own copy of the class's name.
pub(crate) fn owned(alloc: Global, spelled: ParsedType<'_>) -> Result<FieldType, AllocError>
    ensures { IfOk result (λ t. t ≡ type_of spelled.entry) }
{
    let element = match spelled.innermost {
        ParsedElement::Primitive(primitive) => Element::Primitive(primitive),
        ParsedElement::Object(name) => Element::Object(Items::from_vec(Vec::from_slice(
            alloc, name,
        )?)),
    };
    Ok(FieldType {
        dimensions: spelled.dimensions,
        element,
    })
}

/// Parses a text as a field's type.
pub(crate) fn read_field(alloc: Global, text: &[u16]) -> Result<FieldType, DescriptorFault>
    ensures { IsRead result (field_type_of text.now) }
{
    match field_in(text) {
        Some(spelled) => Ok(owned(alloc, spelled)?),
        None => Err(DescriptorFault::Malformed),
    }
}

/// Parses a field's descriptor.
pub fn parse_field(alloc: Global, text: &[u16]) -> Result<FieldType, DescriptorFault>
    // The one type that the text spells, or `Malformed` if it spells none.
    ensures exact { IsRead result (field_type_of text.now) }
    // A type that is returned is spelled by the text.
    ensures found { IfOk result (λ t. SpellsFieldType text.now t) }
    // A type that the text spells is returned, unless memory runs out.
    ensures only { (t : FieldType) → SpellsFieldType text.now t → IsRead result (Some t) }
{
    read_field(alloc, text)
}

/// Decides whether a text is a field's descriptor.
pub fn is_field_descriptor(text: &[u16]) -> bool
    ensures { result ≡ is_some (field_type_of text.now) }
{
    field_in(text).is_some()
}
