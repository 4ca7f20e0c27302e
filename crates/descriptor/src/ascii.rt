//! Compares texts with ASCII strings.

ghost use Rattle.std.specs.Prelude.{◌≡◌};
ghost use Rattle.jvms_file.specs.Names.{same_text};

/// Decides whether bytes and units are the same text.
fn are_same(bytes: &[u8], units: &[u16]) -> bool
    ensures { result ≡ same_text bytes.now units.now }
{
    match (bytes.split_first(), units.split_first()) {
        (None, None) => true,
        (Some((byte, bytes)), Some((unit, units))) => {
            u16::from(*byte) == *unit && are_same(bytes, units)
        }
        _ => false,
    }
}

/// Decides whether units are those of an ASCII string.
pub fn is_text(ascii: &str, units: &[u16]) -> bool
    ensures { result ≡ same_text ascii.now units.now }
{
    are_same(ascii.as_bytes(), units)
}

/// Decides whether a name is an ASCII string.
pub fn is_named(name: &[u16], ascii: &str) -> bool
    ensures { result ≡ same_text name.now ascii.now }
{
    is_text(ascii, name)
}
