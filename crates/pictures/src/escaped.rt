//! Escapes and shortens texts inside of a picture.

use std::alloc::AllocError;

/// The maximum number of characters of a text in SVG. A longer one is cut.
const MOST_CHARACTERS: usize = 34;

/// The maximum number of characters of a text in DOT. A longer one is cut.
const MOST_QUOTED: usize = 100;

/// The text that follows a text that is cut.
const CUT: &str = "..";

/// Appends a character of a text in XML.
fn put_character(out: &mut String, character: char) -> Result<(), AllocError> {
    match character {
        '&' => out.push_str("&amp;"),
        '<' => out.push_str("&lt;"),
        '>' => out.push_str("&gt;"),
        '"' => out.push_str("&quot;"),
        _ => out.push(character),
    }
}

/// Appends a text in XML, cut after its first characters if it is long.
pub(crate) fn put_short(out: &mut String, text: &str) -> Result<(), AllocError> {
    for (place, character) in text.chars().enumerate() {
        if place >= MOST_CHARACTERS {
            return out.push_str(CUT);
        }
        put_character(out, character)?;
    }
    Ok(())
}

/// Returns how many characters of an ASCII text `put_short` shows.
pub(crate) fn shown_length(text: &str) -> usize {
    let length = text.len();
    if length > MOST_CHARACTERS {
        MOST_CHARACTERS.saturating_add(CUT.len())
    } else {
        length
    }
}

/// Appends a character of a text between quotes in DOT. Graphviz reads the entities of XML there too.
fn put_quoted_character(out: &mut String, character: char) -> Result<(), AllocError> {
    match character {
        '&' => out.push_str("&amp;"),
        '"' => out.push_str("\\\""),
        '\\' => out.push_str("\\\\"),
        _ => out.push(character),
    }
}

/// Appends a text between quotes in DOT, cut after its first characters if it is long.
pub(crate) fn put_quoted(out: &mut String, text: &str) -> Result<(), AllocError> {
    for (place, character) in text.chars().enumerate() {
        if place >= MOST_QUOTED {
            return out.push_str(CUT);
        }
        put_quoted_character(out, character)?;
    }
    Ok(())
}
