//! Assembles fields (JVMS 4.5).

ghost use Rattle.std.specs.Prelude.{[]};
ghost use Rattle.const_pool.specs.Interning.{pool_of};
ghost use Rattle.pool_entries.specs.Entries.{Gives};
ghost use Rattle.assembly.specs.Assembled.{value_entry, field_attributes, field_info, fields_onto};
ghost use Rattle.assembler.specs.Steps.{Enters};

use class_file::CONSTANT_VALUE;
use jasmin::source::{FieldConstant, FieldLine};
use jvms_file::class_file::{FieldAttribute, FieldInfo};
use pool_entries::{Entries, EntryFault};
use shared_data::items::Items;
use std::alloc::Global;

/// Returns the index of a field's constant.
fn value_entry(
    alloc: Global,
    entries: &mut Entries,
    value: &FieldConstant,
) -> Result<u16, EntryFault>
    ensures { Gives (value_entry (pool_of entries.old) value.now) result (pool_of entries.new) }
{
    match value {
        FieldConstant::Integer(number) => entries.integer(*number),
        FieldConstant::Long(number) => entries.long(*number),
        FieldConstant::String(text) => entries.string(alloc, text.as_slice()),
    }
}

/// Returns the ConstantValue attribute of a field that has a constant (JVMS 4.7.2).
#[tactic(auto, unfolding(assembly::specs::Assembled::field_attributes))]
fn field_attributes(
    alloc: Global,
    entries: &mut Entries,
    constant: &Option<FieldConstant>,
) -> Result<Items<FieldAttribute>, EntryFault>
    ensures { Enters (λ attributes. attributes)
        (field_attributes (pool_of entries.old) constant.now) result (pool_of entries.new) }
{
    let mut attributes = Items::new(alloc);
    match constant {
        None => Ok(attributes),
        Some(constant) => {
            let name = entries.text(alloc, &CONSTANT_VALUE)?;
            let value = value_entry(alloc, entries, constant)?;
            attributes.push(FieldAttribute::ConstantValue { name, value })?;
            Ok(attributes)
        }
    }
}

/// Returns the info of a field (JVMS 4.5).
#[tactic(auto, unfolding(assembly::specs::Assembled::field_info))]
fn field_info(
    alloc: Global,
    entries: &mut Entries,
    field: &FieldLine,
) -> Result<FieldInfo, EntryFault>
    ensures { Enters (λ info. info)
        (field_info (pool_of entries.old) field.now) result (pool_of entries.new) }
{
    let name = entries.text(alloc, field.name.as_slice())?;
    let descriptor = entries.text(alloc, field.descriptor.as_slice())?;
    let attributes = field_attributes(alloc, entries, &field.constant)?;
    Ok(FieldInfo {
        access: field.access,
        name,
        descriptor,
        attributes,
    })
}

/// Returns the infos of a class's fields, in their order.
pub(crate) fn fields_of(
    alloc: Global,
    entries: &mut Entries,
    fields: &[FieldLine],
) -> Result<Items<FieldInfo>, EntryFault>
    ensures { Enters (λ infos. infos)
        (fields_onto [] (pool_of entries.old) fields.now) result (pool_of entries.new) }
{
    let mut infos = Items::new(alloc);
    for field in fields {
        let info = field_info(alloc, entries, field)?;
        infos.push(info)?;
    }
    Ok(infos)
}
