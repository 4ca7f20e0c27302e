//! The texts of class files: lists of UTF-16 code units, and the bytes that code them in Modified UTF-8 (JVMS 4.4.7).
#![tactic(auto)]

mod decoding;
mod encoding;
mod fault;

pub use decoding::decode;
pub use encoding::encode;
pub use fault::Fault;
use shared_data::items::Items;

/// A text as the list of its UTF-16 code units.
pub type Units = Items<u16>;
