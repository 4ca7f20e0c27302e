//! Judges the operands of a line of a source, each by its place. No function here takes memory. The results borrow from
//! the tokens.
#![tactic(auto)]

mod access;
mod array_type;
mod caught;
mod judgement;
mod letters;
mod members;
mod numbers;
mod numerals;
mod places;
mod words;

pub use access::{AccessWords, access_table, access_words, flags_in};
pub use array_type::array_type_at;
pub use caught::{CaughtName, caught_at};
pub use judgement::{Judged, both, judge_test, lesser, unless};
pub use members::{
    before_descriptor, class_of, descriptor_of, is_member_field, is_member_method, name_of,
};
pub use numbers::{i8_at, i16_at, i32_at, i64_at, u8_at, u16_at};
pub use numerals::{is_version, number_of, spells_number};
pub use places::{exactly, operand};
pub use words::{
    class_at, class_name_at, field_descriptor_at, keyword_at, label_at, name_at, word_at,
    word_or_none,
};
