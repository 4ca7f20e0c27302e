//! Adds lists of classes to the pool: interfaces, and those that methods throw (JVMS 4.1, 4.7.5).

ghost use Rattle.std.specs.Prelude.{[]};
ghost use Rattle.const_pool.specs.Interning.{pool_of};
ghost use Rattle.assembly.specs.Operands.{classes_onto};
ghost use Rattle.assembly.specs.Assembled.{throws_attributes};
ghost use Rattle.assembler.specs.Steps.{Enters, list_of};

use class_file::EXCEPTIONS;
use jvms_file::class_file::MethodAttribute;
use pool_entries::{Entries, EntryFault};
use shared_data::items::Items;
use shared_data::shared::Text;
use std::alloc::Global;

/// Returns the indices of classes, by their names.
pub(crate) fn classes_of(
    alloc: Global,
    entries: &mut Entries,
    names: &[Text],
) -> Result<Items<u16>, EntryFault>
    ensures { Enters (λ numbers. numbers)
        (classes_onto [] (pool_of entries.old) names.now) result (pool_of entries.new) }
{
    let mut numbers = Items::new(alloc);
    for name in names {
        let number = entries.class(alloc, name.as_slice())?;
        numbers.push(number)?;
    }
    Ok(numbers)
}

/// Returns the Exceptions attribute of a method that throws some (JVMS 4.7.5).
#[tactic(auto, unfolding(assembly::specs::Assembled::throws_attributes))]
pub(crate) fn throws_attribute(
    alloc: Global,
    entries: &mut Entries,
    throws: &[Text],
) -> Result<Option<MethodAttribute>, EntryFault>
    ensures { Enters list_of (throws_attributes (pool_of entries.old) throws.now) result
        (pool_of entries.new) }
{
    if let [] = throws {
        return Ok(None);
    }
    let name = entries.text(alloc, &EXCEPTIONS)?;
    let classes = classes_of(alloc, entries, throws)?;
    Ok(Some(MethodAttribute::Exceptions { name, classes }))
}
