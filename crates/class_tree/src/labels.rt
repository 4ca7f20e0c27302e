//! Makes the labels of places.

ghost use Rattle.std.specs.Prelude.{◌≡◌, IfOk, map};
ghost use Rattle.listing_spec.specs.TreeOf.{label_of};

use shared_data::items::Items;
use shared_data::shared::Text;
use shared_data::texts::ascii_text;
use std::alloc::{AllocError, Global};

/// Returns the label of a place: `L` and its number.
#[tactic(auto, unfolding(listing_spec::specs::TreeOf::label_of))]
pub(crate) fn label_of(alloc: Global, place: usize) -> Result<Text, AllocError>
    ensures { IfOk result (λ label. label ≡ label_of place) }
{
    let label = format!(in alloc; "L{place}")?;
    ascii_text(alloc, label.as_str())
}

/// Returns the labels of targets, in order.
pub(crate) fn labels_of(alloc: Global, targets: &[u32]) -> Result<Items<Text>, AllocError>
    ensures { IfOk result (λ labels. labels ≡ map label_of targets.now) }
{
    let mut labels = Vec::with_capacity(alloc, targets.len())?;
    for target in targets {
        labels.push(label_of(alloc, *target as usize)?)?;
    }
    Ok(Items::from_vec(labels))
}
