//! The length of a text in a class file.

ghost use Rattle.std.specs.Prelude.{◌≡◌, length};
ghost use Rattle.jvms_file.specs.Texts.{unit_bytes};
ghost use Rattle.pool_entries.specs.Entries.{is_short};

/// The greatest number of bytes of a text in Modified UTF-8: its length has two bytes (JVMS 4.4.7).
const MOST_BYTES: usize = 65535;

/// Returns the number of bytes of a unit in Modified UTF-8.
fn byte_count(unit: u16) -> usize
    ensures { result ≡ length (unit_bytes unit) }
{
    match unit {
        0x0001..=0x007f => 1,
        0x0000 | 0x0080..=0x07ff => 2,
        _ => 3,
    }
}

/// Decides whether a text has at most 65535 bytes, without encoding it.
#[tactic(auto, unfolding(jvms_file::specs::Texts::bytes_of_text))]
pub(crate) fn is_short(text: &[u16]) -> bool
    ensures { result ≡ is_short text.now }
{
    let mut left = MOST_BYTES;
    for unit in text {
        let bytes = byte_count(*unit);
        if bytes > left {
            return false;
        }
        left -= bytes;
    }
    true
}
