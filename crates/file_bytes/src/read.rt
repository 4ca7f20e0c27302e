//! Big-endian numbers at the front of bytes (JVMS 4, u1, u2, u4). Each reader gets the fault for missing bytes, and
//! fails with no other. None allocates memory.

ghost use Rattle.std.specs.Prelude.{◌≡◌};
ghost use Rattle.jvms_file.specs.Bytes.{u1_at, u2_at, u4_at, u8_at, bytes_at};
ghost use Rattle.jvms_file.specs.Results.{want};
ghost use Rattle.file_bytes.specs.Reading.{Finds};

use byteorder::{BigEndian, ByteOrder};
use jvms_file::fault::ClassFault;

/// Returns the fault if the test is false.
pub fn want(test: bool, fault: ClassFault) -> Result<(), ClassFault>
    ensures { Finds (λ x. x) result (want test fault) }
{
    if test { Ok(()) } else { Err(fault) }
}

/// Reads the first byte and returns it with the bytes after it.
#[tactic(auto, unfolding(jvms_file::specs::Bytes::number))]
pub fn u1_at(cut: ClassFault, bytes: &[u8]) -> Result<(u8, &[u8]), ClassFault>
    ensures { Finds (λ x. (x.0, x.1.now)) result (u1_at cut bytes.now) }
{
    if bytes.is_empty() {
        return Err(cut);
    }
    Ok((bytes[0], &bytes[1..]))
}

/// Reads a number of two bytes and returns it with the bytes after it.
#[tactic(auto, unfolding(jvms_file::specs::Bytes::number))]
pub fn u2_at(cut: ClassFault, bytes: &[u8]) -> Result<(u16, &[u8]), ClassFault>
    ensures { Finds (λ x. (x.0, x.1.now)) result (u2_at cut bytes.now) }
{
    if bytes.len() < 2 {
        return Err(cut);
    }
    Ok((BigEndian::read_u16(bytes), &bytes[2..]))
}

/// Reads a number of four bytes and returns it with the bytes after it.
#[tactic(auto, unfolding(jvms_file::specs::Bytes::number))]
pub fn u4_at(cut: ClassFault, bytes: &[u8]) -> Result<(u32, &[u8]), ClassFault>
    ensures { Finds (λ x. (x.0, x.1.now)) result (u4_at cut bytes.now) }
{
    if bytes.len() < 4 {
        return Err(cut);
    }
    Ok((BigEndian::read_u32(bytes), &bytes[4..]))
}

/// Reads a number of eight bytes and returns it with the bytes after it.
#[tactic(auto, unfolding(jvms_file::specs::Bytes::number))]
pub fn u8_at(cut: ClassFault, bytes: &[u8]) -> Result<(u64, &[u8]), ClassFault>
    ensures { Finds (λ x. (x.0, x.1.now)) result (u8_at cut bytes.now) }
{
    if bytes.len() < 8 {
        return Err(cut);
    }
    Ok((BigEndian::read_u64(bytes), &bytes[8..]))
}

/// Splits off the first `count` bytes and returns them with the bytes after them.
pub fn bytes_at(cut: ClassFault, count: usize, bytes: &[u8]) -> Result<(&[u8], &[u8]), ClassFault>
    ensures { Finds (λ x. (x.0.now, x.1.now)) result (bytes_at cut count bytes.now) }
{
    if bytes.len() < count {
        return Err(cut);
    }
    Ok(bytes.split_at(count))
}
