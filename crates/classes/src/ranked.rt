//! The classes of a program in their order.

ghost use Rattle.classes.specs.Hierarchy.{IsHierarchyOf};

use jvms_program::program::Class;
use shared_data::items::Items;

/// Classes with the numbers of each one's superinterfaces and superclass, and an order in which each class comes after
/// its own.
#[derive(Clone, Copy)]
pub(crate) struct Ranked<'a> {
    pub(crate) classes: &'a [Class],
    pub(crate) supers: &'a [Items<usize>],
    /// The place of each class in the order.
    pub(crate) ranks: &'a [usize],
    /// The number of the class at each place of the order.
    pub(crate) order: &'a [usize],
    ghost is_hierarchy: { IsHierarchyOf classes.now supers.now ranks.now order.now },
}
