//! Converts a line to UTF-16 code units.

ghost use Rattle.std.specs.Prelude.{◌≡◌, IfOk};
ghost use Rattle.jasmin.specs.Sources.{units_of};

use std::alloc::{AllocError, Global};

/// Returns the UTF-16 code units of a text.
pub(crate) fn units_of(alloc: Global, text: &str) -> Result<Vec<u16>, AllocError>
    ensures { IfOk result (λ units. units.items ≡ units_of text.now) }
{
    let mut units = Vec::new(alloc);
    for character in text.chars() {
        let mut pair = [0; 2];
        units.extend_from_slice(character.encode_utf16(&mut pair))?;
    }
    Ok(units)
}
