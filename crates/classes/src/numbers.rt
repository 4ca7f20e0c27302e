//! The numbers of classes by their names.

ghost use Rattle.std.specs.Prelude.{IfOk};
ghost use Rattle.classes.specs.Numbers.{AreNumbersOf};

use jvms_program::program::Class;
use std::alloc::{AllocError, Global};
use std::collections::BTreeMap;

/// Returns the number of each class by its name: its place in the list. If several classes have one name, it is that of
/// the first. The names are in a tree, so that no choice of names makes look-ups slow.
pub(crate) fn numbers_by_name(
    alloc: Global,
    classes: &[Class],
) -> Result<BTreeMap<Vec<u16>, usize>, AllocError>
    ensures { IfOk result (λ numbers. AreNumbersOf classes.now numbers) }
{
    let mut numbers = BTreeMap::new(alloc);
    for (number, class) in classes.iter().enumerate() {
        let name = class.name.as_slice();
        if !numbers.contains_key(name) {
            numbers.insert(Vec::from_slice(alloc, name)?, number)?;
        }
    }
    Ok(numbers)
}
