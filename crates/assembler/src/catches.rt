//! Adds the classes that catches name to the pool (JVMS 4.7.3).

ghost use Rattle.std.specs.Prelude.{[]};
ghost use Rattle.const_pool.specs.Interning.{pool_of};
ghost use Rattle.pool_entries.specs.Entries.{Gives};
ghost use Rattle.assembly.specs.Operands.{catch_entry, catches_onto};
ghost use Rattle.assembler.specs.Steps.{Enters};

use jasmin::source::{CatchLine, Caught};
use pool_entries::{Entries, EntryFault};
use shared_data::items::Items;
use std::alloc::Global;

/// Returns the index of the class that a catch names, or 0 for all.
#[tactic(auto, unfolding(assembly::specs::Operands::catch_entry))]
fn catch_entry(alloc: Global, entries: &mut Entries, caught: &Caught) -> Result<u16, EntryFault>
    ensures { Gives (catch_entry (pool_of entries.old) caught.now) result (pool_of entries.new) }
{
    match caught {
        Caught::All => Ok(0),
        Caught::Class(name) => entries.class(alloc, name.as_slice()),
    }
}

/// Returns the indices of the classes that catches name, in their order.
pub(crate) fn catches_of(
    alloc: Global,
    entries: &mut Entries,
    catches: &[CatchLine],
) -> Result<Items<u16>, EntryFault>
    ensures { Enters (λ numbers. numbers)
        (catches_onto [] (pool_of entries.old) catches.now) result (pool_of entries.new) }
{
    let mut numbers = Items::new(alloc);
    for catch in catches {
        let number = catch_entry(alloc, entries, &catch.caught)?;
        numbers.push(number)?;
    }
    Ok(numbers)
}
