//! Names, members and numbers in texts: names in ASCII, with escapes. Each has one spelling.
#![tactic(auto)]

mod cuts;
mod key;
mod name;
mod number;
mod sort;
mod unit;

pub use cuts::{cut, cut_twice, dots_in};
pub use jvms_program::key::{FieldKey, MethodKey};
pub use key::{field_of, method_of, put_field, put_member, put_method};
pub use name::{name_of, name_units, put_name};
pub use number::{put_counted, put_number, put_signed};
pub use sort::NameSort;
