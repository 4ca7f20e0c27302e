//! The classes of a program (JVMS 5.3): the built-in ones and those of class files, with look-ups among them by name
//! (JVMS 5.4.3).
#![tactic(auto)]

mod ancestors;
mod chain;
mod class_list;
mod class_sets;
mod class_type;
mod declarations;
mod exists;
mod field_name;
mod fields;
mod hierarchy;
mod list;
mod look;
mod lookup;
mod marks;
mod methods;
mod names;
mod numbers;
mod order;
mod persistent_arrays;
mod ranked;
mod ranks;
mod resolve;
mod select;
mod slot_starts;
mod slots;
mod subtypes;
mod supers;
mod walk;

pub use chain::superclass_name;
pub use class_list::ClassList;
pub use class_sets::{AncestorSets, ancestor_sets};
pub use descriptor;
pub use field_name::FieldName;
pub use list::{Classes, Ordered};
pub use lookup::{declared_field_number, declared_number, numbered};
pub use methods::MethodNames;
pub use names::OBJECT;
pub use persistent_arrays::PersistentArrays;
pub use ranks::ranks_of;
pub use slot_starts::{FieldStarts, field_starts};
pub use slots::Slot;
pub use supers::{super_numbers, super_rows};
