//! The numbers of superclasses and superinterfaces.

ghost use Rattle.std.specs.Prelude.{◌≡◌, IfOk, OnOk, ◌++◌};
ghost use Rattle.classes.specs.Hierarchy.{numbers_of, super_numbers, super_rows, to_list};
ghost use Rattle.jvms_program.specs.Program.{class_number};

use crate::class_list::ClassList;
use jvms_program::program::Class;
use shared_data::items::Items;
use shared_data::shared::Text;
use std::alloc::{AllocError, Global};

/// Appends the number of the class of a name, if the class is there.
fn push_number(list: &ClassList, numbers: &mut Items<usize>, name: &Text) -> Result<(), AllocError>
    ensures { OnOk result (numbers.new ≡ numbers.old ++ to_list (class_number list.now name.now)) }
{
    match list.class_number(name.as_slice()) {
        None => Ok(()),
        Some(number) => numbers.push(number),
    }
}

/// Returns the numbers of the classes of these names that are there.
fn numbers_of(alloc: Global, list: &ClassList, names: &[Text]) -> Result<Items<usize>, AllocError>
    ensures { IfOk result (λ numbers. numbers ≡ numbers_of list.now names.now) }
{
    let mut numbers = Items::new(alloc);
    for name in names {
        push_number(list, &mut numbers, name)?;
    }
    Ok(numbers)
}

/// Returns the numbers of a class's superinterfaces and of its superclass.
pub fn super_numbers(
    alloc: Global,
    list: &ClassList,
    class: &Class,
) -> Result<Items<usize>, AllocError>
    ensures { IfOk result (λ numbers. numbers ≡ super_numbers list.now class.now) }
{
    let mut numbers = numbers_of(alloc, list, class.interfaces.as_slice())?;
    if let Some(superclass) = &class.superclass {
        push_number(list, &mut numbers, superclass)?;
    }
    Ok(numbers)
}

/// Returns the numbers of the superinterfaces and the superclass of each class.
pub fn super_rows(alloc: Global, list: &ClassList) -> Result<Vec<Items<usize>>, AllocError>
    ensures { IfOk result (λ rows. rows.items ≡ super_rows list.now) }
{
    let mut rows = Vec::with_capacity(alloc, list.classes().len())?;
    for class in list.classes() {
        rows.push(super_numbers(alloc, list, class)?)?;
    }
    Ok(rows)
}
