//! The first slots of each class's fields. They are computed for all classes in one pass, each after its superclass, so
//! that no chain of superclasses is walked again and again.

ghost use Rattle.std.specs.Prelude.{◌≡◌, IfOk, IfSome, Some, slice_get, take, true};
ghost use Rattle.classes.specs.Slots.{AreStarts, AreStartsOf, AreTotals, count_of_all, total_above};

use crate::chain::superclass_name;
use crate::list::Classes;
use crate::slots::{Slot, count_of};
use jvms_program::program::Class;
use std::alloc::{AllocError, Global};

/// The first slots of a class's fields.
#[derive(Clone, Copy, Debug)]
pub struct FieldStarts {
    /// The slot of its first static field.
    pub statics: Slot,
    /// The slot of its first instance field.
    pub instances: Slot,
}

/// Returns the total of a class's superclass, 0 if there is none.
fn total_above(program: &Classes, totals: &[usize], class: &Class) -> usize
    ensures { result ≡ total_above program.now totals.now class.now.superclass }
{
    let Some(superclass) = superclass_name(class) else {
        return 0;
    };
    let Some(number) = program.class_number(superclass) else {
        return 0;
    };
    totals.get(number).copied().unwrap_or(0)
}

/// Counts the instance fields of each class together with those of all its superclasses.
fn totals_of(alloc: Global, program: &Classes) -> Result<Vec<usize>, AllocError>
    ensures { IfOk result (λ totals. AreTotals program.now totals.items) }
{
    program.countable_invariant();
    let ranked = program.ranked();
    let mut totals = vec![in alloc; 0; ranked.classes.len()]?;
    for place in 0..ranked.order.len() {
        let at = ranked.order[place];
        let class = &ranked.classes[at];
        let above = total_above(program, totals.as_slice(), class);
        totals[at] = above.saturating_add(count_of(class, false));
    }
    Ok(totals)
}

/// Returns the total of the class of a number.
fn total_at(totals: &[usize], number: usize) -> Option<usize>
    ensures { result ≡ slice_get totals.now number }
{
    totals.get(number).copied()
}

/// Returns the first slots of the fields of a class, if it is the one that its name finds.
fn starts_of(
    program: &Classes,
    totals: &[usize],
    number: usize,
    class: &Class,
    statics: usize,
) -> Option<FieldStarts>
    requires there { slice_get program.now number ≡ Some class.now }
    requires totals { AreTotals program.now totals.now }
    requires statics { statics ≡ count_of_all true (take number program.now) }
    ensures { IfSome result (λ starts. AreStarts program.now class.now starts) }
{
    program.countable_invariant();
    let own = program.class_number(class.name.as_slice())?;
    let total = total_at(totals, number)?;
    if own == number {
        Some(FieldStarts {
            statics,
            instances: total - count_of(class, false),
        })
    } else {
        None
    }
}

/// Returns the first slots of each class's fields. A class with the name of an earlier one has none.
pub fn field_starts(
    alloc: Global,
    program: &Classes,
) -> Result<Vec<Option<FieldStarts>>, AllocError>
    ensures { IfOk result (λ starts. AreStartsOf program.now starts.items) }
{
    program.countable_invariant();
    let totals = totals_of(alloc, program)?;
    let mut starts = Vec::with_capacity(alloc, program.classes().len())?;
    let mut statics = 0;
    for (number, class) in program.classes().iter().enumerate() {
        starts.push(starts_of(program, totals.as_slice(), number, class, statics))?;
        statics += count_of(class, true);
    }
    Ok(starts)
}
