//! Reads words, files and texts, and reads them again if that is refused.

use crate::again;
use shared_data::items::Items;
use std::alloc::{AllocError, Global};
use std::{env, fs, io};

/// Returns the words after the program's name.
fn all_words(rt: &HostRuntime) -> io::Result<Vec<String>> {
    let words = env::args(rt)?.skip(1).collect(rt.alloc())?;
    Ok(words)
}

/// Returns the words after the program's name.
pub fn words_of(rt: &HostRuntime) -> Option<Vec<String>> {
    again!(rt, "words", all_words(rt))
}

/// Reads the bytes of a file.
pub fn bytes_of(rt: &HostRuntime, name: &str) -> Option<Vec<u8>> {
    again!(rt, "file", fs::read(rt, name))
}

/// Reads the text of a file.
pub fn text_of(rt: &HostRuntime, name: &str) -> Option<String> {
    String::from_utf8(bytes_of(rt, name)?).ok()
}

/// Returns the UTF-16 code units of a text in ASCII.
fn all_units(alloc: Global, text: &str) -> Result<Items<u16>, AllocError> {
    let units = text
        .as_bytes()
        .iter()
        .map(|byte| u16::from(*byte))
        .collect(alloc)?;
    Ok(Items::from_vec(units))
}

/// Returns the UTF-16 code units of a text in ASCII.
pub fn units_of(rt: &HostRuntime, text: &str) -> Option<Items<u16>> {
    again!(rt, "units", all_units(rt.alloc(), text))
}
