//! Converts fields (JVMS 4.5).

ghost use Rattle.std.specs.Prelude.{◌≡◌};
ghost use Rattle.jvms_file.specs.Results.{results_of};
ghost use Rattle.listing_spec.specs.Faults.{Lists};
ghost use Rattle.listing_spec.specs.TreeOf.{field_flags, field_value, field_line};

use crate::constants::value_of;
use crate::texts::Texts;
use jasmin::source::{FieldConstant, FieldLine};
use jvms_file::class_file::{FieldAttribute, FieldInfo};
use listing_spec::fault::ListFault;
use shared_data::items::Items;
use std::alloc::Global;

/// The flags that have access words of fields (JVMS table 4.5-A).
const FLAGS: u16 = 223;

/// Returns the constant that the first ConstantValue attribute names (JVMS 4.7.2), if there is one.
#[tactic(auto, unfolding(listing_spec::specs::TreeOf::field_value))]
fn field_value(
    texts: &Texts<'_>,
    attributes: &[FieldAttribute],
) -> Result<Option<FieldConstant>, ListFault>
    ensures { Lists result (field_value texts.now attributes.now) }
{
    let mut rest = attributes;
    while let [attribute, others @ ..] = rest {
        if let FieldAttribute::ConstantValue { name: _, value } = attribute {
            return Ok(Some(value_of(texts, *value)?));
        }
        rest = others;
    }
    Ok(None)
}

/// Returns the line of a field.
#[tactic(auto, unfolding(listing_spec::specs::TreeOf::field_line))]
fn field_line(texts: &Texts<'_>, info: &FieldInfo) -> Result<FieldLine, ListFault>
    ensures { Lists result (field_line texts.now info.now) }
{
    let constant = field_value(texts, info.attributes.as_slice())?;
    Ok(FieldLine {
        access: info.access & FLAGS,
        name: texts.text(info.name)?,
        descriptor: texts.text(info.descriptor)?,
        constant,
    })
}

/// Returns the lines of fields, in order.
pub(crate) fn field_lines(
    alloc: Global,
    texts: &Texts<'_>,
    infos: &[FieldInfo],
) -> Result<Items<FieldLine>, ListFault>
    ensures { Lists result (results_of (field_line texts.now) infos.now) }
{
    let mut lines = Items::new(alloc);
    let mut rest = infos;
    while let [info, others @ ..] = rest {
        let line = field_line(texts, info)?;
        lines.push(line)?;
        rest = others;
    }
    Ok(lines)
}
