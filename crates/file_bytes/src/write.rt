//! Big-endian numbers that are appended to bytes (JVMS 4, u2, u4). Without memory for all of a number nothing changes.

ghost use Rattle.std.specs.Prelude.{◌≡◌, ◌++◌, OnOk, OnErr};
ghost use Rattle.jvms_file.specs.Spelling.{u2, u4, u8};

use byteorder::{BigEndian, ByteOrder};
use std::alloc::AllocError;

/// Appends the two bytes of a number.
#[tactic(auto, unfolding(jvms_file::specs::Spelling::u2))]
pub fn write_u2(out: &mut Vec<u8>, number: u16) -> Result<(), AllocError>
    ensures ok { OnOk result (out.new.items ≡ out.old.items ++ u2 number) }
    ensures kept { OnErr result (out.new.items ≡ out.old.items) }
{
    let mut bytes = [0; 2];
    BigEndian::write_u16(&mut bytes, number);
    out.extend_from_slice(&bytes)
}

/// Appends the four bytes of a number.
#[tactic(auto, unfolding(jvms_file::specs::Spelling::u4))]
pub fn write_u4(out: &mut Vec<u8>, number: u32) -> Result<(), AllocError>
    ensures ok { OnOk result (out.new.items ≡ out.old.items ++ u4 number) }
    ensures kept { OnErr result (out.new.items ≡ out.old.items) }
{
    let mut bytes = [0; 4];
    BigEndian::write_u32(&mut bytes, number);
    out.extend_from_slice(&bytes)
}

/// Appends the eight bytes of a number.
#[tactic(auto, unfolding(jvms_file::specs::Spelling::u8))]
pub fn write_u8(out: &mut Vec<u8>, number: u64) -> Result<(), AllocError>
    ensures ok { OnOk result (out.new.items ≡ out.old.items ++ u8 number) }
    ensures kept { OnErr result (out.new.items ≡ out.old.items) }
{
    let mut bytes = [0; 8];
    BigEndian::write_u64(&mut bytes, number);
    out.extend_from_slice(&bytes)
}

/// Appends the lowest two bytes of a count. That is the whole count if it is a u2.
#[tactic(auto, unfolding(jvms_file::specs::Spelling::u2))]
pub fn write_count(out: &mut Vec<u8>, count: usize) -> Result<(), AllocError>
    ensures ok { OnOk result (out.new.items ≡ out.old.items ++ u2 count) }
    ensures kept { OnErr result (out.new.items ≡ out.old.items) }
{
    let mut bytes = [0; 8];
    BigEndian::write_u64(&mut bytes, count as u64);
    out.extend_from_slice(&bytes[6..])
}

/// Appends the lowest four bytes of a length. That is the whole length if it is a u4.
#[tactic(auto, unfolding(jvms_file::specs::Spelling::u4))]
pub fn write_length(out: &mut Vec<u8>, length: usize) -> Result<(), AllocError>
    ensures ok { OnOk result (out.new.items ≡ out.old.items ++ u4 length) }
    ensures kept { OnErr result (out.new.items ≡ out.old.items) }
{
    let mut bytes = [0; 8];
    BigEndian::write_u64(&mut bytes, length as u64);
    out.extend_from_slice(&bytes[4..])
}
