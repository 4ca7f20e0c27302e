//! An order of classes in which each comes after its superclass and its superinterfaces (JVMS 5.3.5).

ghost use Rattle.std.specs.Prelude.{◌≡◌, ◌&&◌, IfOk, IfSome, length, nat_lt, true};
ghost use Rattle.std.specs.List.{list_all};
ghost use Rattle.classes.specs.Hierarchy.{AreFound, ArePlaced, IsHierarchyOf, rank};

use crate::class_list::ClassList;
use crate::ranks::{put, ranks_of};
use crate::supers::super_rows;
use shared_data::items::Items;
use std::alloc::{AllocError, Global};

/// The numbers of each class's superinterfaces and superclass, and an order in which each class comes after its own.
#[derive(Drop)]
pub(crate) struct Hierarchy {
    pub(crate) supers: Vec<Items<usize>>,
    /// The place of each class in the order.
    pub(crate) ranks: Vec<usize>,
    /// The number of the class at each place of the order.
    pub(crate) order: Vec<usize>,
}

/// Returns the place of a class in the order.
pub(crate) fn rank(ranks: &[usize], class: usize) -> usize
    ensures { result ≡ rank ranks.now class }
{
    ranks.get(class).copied().unwrap_or(0)
}

/// Returns whether each of these classes is one of `count`, and its place is below a limit.
fn come_before(ranks: &[usize], count: usize, limit: usize, classes: &[usize]) -> bool
    ensures { result
        ≡ list_all (λ n. nat_lt n count && nat_lt (rank ranks.now n) limit) classes.now }
{
    classes
        .iter()
        .all(|class| *class < count && rank(ranks, *class) < limit)
}

/// Returns whether each class has its place in the order, after its superclass and its superinterfaces.
fn are_placed(supers: &[Items<usize>], ranks: &[usize], order: &[usize]) -> bool
    ensures { result ≡ true → ArePlaced supers.now ranks.now order.now }
{
    for (class, row) in supers.iter().enumerate() {
        let place = rank(ranks, class);
        if place >= order.len() || order[place] != class {
            return false;
        }
        if !come_before(ranks, supers.len(), place, row.as_slice()) {
            return false;
        }
    }
    true
}

/// Returns whether each item of the order is the number of one of `count` classes, and that class has its place.
fn are_found(count: usize, ranks: &[usize], order: &[usize]) -> bool
    ensures { result ≡ true → AreFound count ranks.now order.now }
{
    if order.len() > count {
        return false;
    }
    for (place, class) in order.iter().enumerate() {
        if *class >= count || rank(ranks, *class) != place {
            return false;
        }
    }
    true
}

/// Makes ranks begin at 0, and returns the classes in their order.
fn order_by(alloc: Global, ranks: &mut [usize]) -> Result<Vec<usize>, AllocError> {
    let mut order = vec![in alloc; 0; ranks.len()]?;
    for (class, rank) in ranks.iter_mut().enumerate() {
        *rank = rank.saturating_sub(1);
        put(order.as_mut_slice(), *rank, class);
    }
    Ok(order)
}

/// Orders the classes of a list, if there is an order.
pub(crate) fn hierarchy_of(alloc: Global, list: &ClassList) -> Result<Option<Hierarchy>, AllocError>
    ensures { IfOk result (λ found. IfSome found
        (λ h. IsHierarchyOf list.now h.supers.items h.ranks.items h.order.items)) }
{
    let supers = super_rows(alloc, list)?;
    let mut ranks = ranks_of(alloc, supers.as_slice())?;
    let order = order_by(alloc, ranks.as_mut_slice())?;
    if are_placed(supers.as_slice(), ranks.as_slice(), order.as_slice())
        && are_found(supers.len(), ranks.as_slice(), order.as_slice())
    {
        Ok(Some(Hierarchy {
            supers,
            ranks,
            order,
        }))
    } else {
        Ok(None)
    }
}
