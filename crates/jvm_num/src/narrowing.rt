//! Conversions of an int to a smaller type.

ghost use Rattle.std.specs.Prelude.{◌≡◌};
ghost use Rattle.jvms_file.specs.Numbers.{narrowed_int};

use jvms_file::insn;

/// Narrows an int to a byte, a char or a short (JVMS 2.11.4, 6.5 i2b, i2c, i2s). For a boolean it keeps the lowest bit.
#[inline(always)]
pub fn narrow(to: insn::Narrow, n: i32) -> i32
    ensures { result ≡ narrowed_int to n }
{
    match to {
        insn::Narrow::Byte => i32::from((n.rem_euclid(1 << 8) as u8).cast_signed()),
        insn::Narrow::Char => n.rem_euclid(1 << 16),
        insn::Narrow::Short => i32::from((n.rem_euclid(1 << 16) as u16).cast_signed()),
        insn::Narrow::Boolean => n.rem_euclid(2),
    }
}
