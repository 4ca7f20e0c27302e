//! Big-endian numbers at the front of bytes (JVMS 4, u2).

ghost use Rattle.std.specs.Prelude.{◌≡◌, ◌≤◌, length};
ghost use Rattle.jvms_file.specs.Bytes.{number};

use byteorder::{BigEndian, ByteOrder};

/// Returns the number of the first two bytes.
#[tactic(auto, unfolding(jvms_file::specs::Bytes::number))]
pub(crate) fn u2(bytes: &[u8]) -> u16
    requires { 2 ≤ length bytes.now }
    ensures { result ≡ number 2 bytes.now }
{
    BigEndian::read_u16(bytes)
}
