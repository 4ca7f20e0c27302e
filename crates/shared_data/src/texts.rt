//! Makes texts.

ghost use Rattle.std.specs.Prelude.{◌≡◌, IfOk};

use crate::items::Items;
use crate::shared::{Shared, Text};
use std::alloc::{AllocError, Global};

/// Returns a new text of these units.
pub fn copied_text(alloc: Global, units: &[u16]) -> Result<Text, AllocError>
    ensures { IfOk result (λ text. text ≡ units.now) }
{
    Shared::new(alloc, Items::from_vec(Vec::from_slice(alloc, units)?))
}

/// Returns a new text of an ASCII string.
pub fn ascii_text(alloc: Global, ascii: &str) -> Result<Text, AllocError>
    ensures { IfOk result (λ units. units ≡ ascii.now) }
{
    let bytes = ascii.as_bytes();
    let mut units = Vec::with_capacity(alloc, bytes.len())?;
    for byte in bytes {
        units.push(u16::from(*byte))?;
    }
    Shared::new(alloc, Items::from_vec(units))
}
