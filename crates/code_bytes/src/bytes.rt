//! Writes the bytes of a method's instructions.

ghost use Rattle.std.specs.Prelude.{◌≡◌, [], length};
ghost use Rattle.jasmin.specs.Denote.{operations};
ghost use Rattle.assembly.specs.Faults.{Answers};
ghost use Rattle.code_bytes.specs.Few.{AreFew};
ghost use Rattle.code_bytes.specs.Writing.{bytes_onto, bytes_within};

use crate::operation::write_operation;
use crate::steps::next_operation;
use assembly::fault::AsmFault;
use jasmin::source::CodeItem;
use shared_data::items::Items;
use source_labels::Labels;
use std::alloc::Global;

/// Returns the bytes of instructions in order, or `BranchTooFar` if a branch can't reach its label.
fn collected_bytes(
    alloc: Global,
    labels: &Labels<'_>,
    starts: &[u16],
    operands: &[u16],
    items: &[CodeItem],
) -> Result<Items<u8>, AsmFault>
    requires { AreFew (operations items.now) }
    ensures { Answers result
        (bytes_onto starts.now labels.now [] operands.now starts.now (operations items.now)) }
{
    let mut bytes = Vec::new(alloc);
    let mut numbers = operands;
    let mut pcs = starts;
    let mut rest = items;
    while let Some((number, others)) = numbers.split_first() {
        let Some((pc, later)) = pcs.split_first() else {
            return Ok(Items::from_vec(bytes));
        };
        let Some((operation, behind)) = next_operation(rest) else {
            return Ok(Items::from_vec(bytes));
        };
        write_operation(&mut bytes, labels, starts, *number, *pc, operation)?;
        numbers = others;
        pcs = later;
        rest = behind;
    }
    Ok(Items::from_vec(bytes))
}

/// Returns the bytes of the instructions that start at the bytes `starts` and name the pool entries `operands`.
///
/// # Errors
///
/// Returns `BranchTooFar` if a branch can't reach its label, or `Memory` if memory ran out.
pub(crate) fn bytes_of(
    alloc: Global,
    labels: &Labels<'_>,
    starts: &[u16],
    operands: &[u16],
    items: &[CodeItem],
) -> Result<Items<u8>, AsmFault>
    requires labels { labels.now ≡ items.now }
    requires few { AreFew (operations items.now) }
    requires numbers { length operands.now ≡ length (operations items.now) }
    requires starts { length starts.now ≡ length (operations items.now) }
    ensures { Answers result (bytes_within starts.now items.now operands.now) }
{
    collected_bytes(alloc, labels, starts, operands, items)
}
