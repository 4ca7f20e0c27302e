//! Iterates over the instructions of code, without its labels.

ghost use Rattle.std.specs.Prelude.{◌≡◌, ◌∷◌, [], MatchOption};
ghost use Rattle.jasmin.specs.Denote.{operations};

use jasmin::source::{CodeItem, Operation};

/// Returns the first instruction of items, and the items after it.
pub(crate) fn next_operation(items: &[CodeItem]) -> Option<(&Operation, &[CodeItem])>
    ensures { MatchOption result (operations items.now ≡ [])
        (λ x. operations items.now ≡ x.0.now ∷ operations x.1.now) }
{
    let mut rest = items;
    while let [item, behind @ ..] = rest {
        match item {
            CodeItem::Operation(operation) => return Some((operation, behind)),
            CodeItem::Label(_) => rest = behind,
        }
    }
    None
}
