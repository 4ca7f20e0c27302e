//! Encodes a text as bytes.

ghost use Rattle.std.specs.Prelude.{◌≡◌, ◌++◌, OnOk, IfOk};
ghost use Rattle.jvms_file.specs.Texts.{unit_bytes, bytes_of_text};

use std::alloc::{AllocError, Global};

/// Appends the bytes of a unit.
fn push_unit(bytes: &mut Vec<u8>, unit: u16) -> Result<(), AllocError>
    ensures { OnOk result (bytes.new.items ≡ bytes.old.items ++ unit_bytes unit) }
{
    match unit {
        0x0001..=0x007f => bytes.push(unit as u8)?,
        0x0000 | 0x0080..=0x07ff => {
            bytes.extend_from_slice(&[0xc0 + (unit / 0x40) as u8, 0x80 + (unit % 0x40) as u8])?;
        }
        _ => bytes.extend_from_slice(&[
            0xe0 + (unit / 0x1000) as u8,
            0x80 + (unit / 0x40 % 0x40) as u8,
            0x80 + (unit % 0x40) as u8,
        ])?,
    }
    Ok(())
}

/// Encodes a text as bytes. Any units have bytes, so it fails only without memory.
#[tactic(auto, unfolding(jvms_file::specs::Texts::bytes_of_text))]
pub fn encode(alloc: Global, units: &[u16]) -> Result<Vec<u8>, AllocError>
    ensures { IfOk result (λ v. v.items ≡ bytes_of_text units.now) }
{
    let mut bytes = Vec::new(alloc);
    for unit in units {
        push_unit(&mut bytes, *unit)?;
    }
    Ok(bytes)
}
