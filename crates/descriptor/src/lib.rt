//! Descriptors, names and access flags, as the Java Virtual Machine Specification, Java SE 8 edition (JVMS) spells
//! them. Names are in 4.2, descriptors in 4.3, the names of class entries in 4.4.1, and the flags in tables 4.1-A,
//! 4.5-A and 4.6-A.
#![tactic(auto)]

mod ascii;
mod entry;
mod fault;
mod field;
mod flags;
mod letters;
mod method;
mod names;
mod scan;
mod types;
mod units;

pub use ascii::{is_named, is_text};
pub use entry::{dimensions_of, is_array_name, is_class_entry_name};
pub use fault::DescriptorFault;
pub use field::{is_field_descriptor, parse_field};
pub use flags::Flags;
pub use method::{is_method_descriptor, method_units, parse_method};
pub use names::{
    is_class_name, is_constructor_name, is_initializer_name, is_invocable_name, is_method_name,
    is_name, same_text,
};
pub use scan::{ParsedElement, ParsedType, field_in};
pub use types::{field_type, method_type};
pub use units::parameter_units;
