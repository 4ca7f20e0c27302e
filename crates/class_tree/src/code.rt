//! Converts the code of a method: its instructions as they are spelled, with labels at the places that are referred to.

ghost use Rattle.std.specs.Prelude.{◌≡◌, ◌≤◌, ◌++◌, [], length, OnOk};
ghost use Rattle.listing_spec.specs.Faults.{Lists};
ghost use Rattle.listing_spec.specs.TreeOf.{label_items, items_onto};

use crate::labels::label_of;
use crate::marks::Marks;
use crate::operations::operation_of;
use crate::texts::Texts;
use jasmin::source::CodeItem;
use jvms_file::class_file::Code;
use listing_spec::fault::ListFault;
use shared_data::items::Items;
use std::alloc::{AllocError, Global};

/// Appends the label of a place, if something refers to the place.
#[tactic(auto, using(crate::proofs::Items::unlabelled))]
fn push_label(
    alloc: Global,
    items: &mut Items<CodeItem>,
    marks: &Marks<'_>,
    place: usize,
) -> Result<(), AllocError>
    requires { place ≤ length marks.now.insns }
    ensures { OnOk result (items.new ≡ items.old ++ label_items marks.now place) }
{
    if marks.is_referred(place) {
        items.push(CodeItem::Label(label_of(alloc, place)?))?;
    }
    Ok(())
}

/// Returns the items of code.
pub(crate) fn items_of(
    alloc: Global,
    texts: &Texts<'_>,
    code: &Code,
) -> Result<Items<CodeItem>, ListFault>
    ensures { Lists result
        (items_onto texts.now code.now [] 0 code.now.layout.starts code.now.insns) }
{
    let marks = Marks::of(alloc, code)?;
    let bytes = code.layout.bytes.as_slice();
    let mut items = Items::new(alloc);
    let starts = code.layout.starts.as_slice();
    let insns = code.insns.as_slice();
    let count = starts.len().min(insns.len());
    for place in 0..count {
        let operation = operation_of(alloc, texts, bytes, starts[place], &insns[place])?;
        push_label(alloc, &mut items, &marks, place)?;
        items.push(CodeItem::Operation(operation))?;
    }
    push_label(alloc, &mut items, &marks, count)?;
    Ok(items)
}
