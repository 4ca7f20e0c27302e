//! Appends numbers to bytes (JVMS 4, `u1`), unsigned or in two's complement.

ghost use Rattle.std.specs.Prelude.{◌≡◌, ◌++◌, ◌∷◌, [], OnOk, ◌<ℤ◌, ◌≤ℤ◌, ◌^◌, pos, neg_ℤ};
ghost use Rattle.std.specs.Int.{w32, cast_unsigned};
ghost use Rattle.assembly.specs.Bytes.{s1, s2, s4};

use file_bytes::{write_u2, write_u4};
use std::alloc::AllocError;

/// Appends a byte.
pub(crate) fn write_u1(out: &mut Vec<u8>, number: u8) -> Result<(), AllocError>
    ensures { OnOk result (out.new.items ≡ out.old.items ++ number ∷ []) }
{
    out.push(number)?;
    Ok(())
}

/// Appends the byte of a signed number.
pub(crate) fn write_s1(out: &mut Vec<u8>, number: i8) -> Result<(), AllocError>
    ensures { OnOk result (out.new.items ≡ out.old.items ++ s1 number) }
{
    write_u1(out, number.cast_unsigned())
}

/// Appends the two bytes of a signed number.
pub(crate) fn write_s2(out: &mut Vec<u8>, number: i16) -> Result<(), AllocError>
    ensures { OnOk result (out.new.items ≡ out.old.items ++ s2 number) }
{
    write_u2(out, number.cast_unsigned())
}

/// Appends the four bytes of a signed number.
pub(crate) fn write_s4(out: &mut Vec<u8>, number: i32) -> Result<(), AllocError>
    ensures { OnOk result (out.new.items ≡ out.old.items ++ s4 number) }
{
    write_u4(out, number.cast_unsigned())
}

/// The number of values of four bytes.
const WORDS: i64 = 4_294_967_296;

/// Returns the four bytes of a number in two's complement, as a `u32`. The number may be above the greatest int.
pub(crate) fn word_of(number: i64) -> u32
    requires least { neg_ℤ (pos (2 ^ 31)) ≤ℤ number }
    requires most { number <ℤ pos (2 ^ 32) }
    ensures { result ≡ cast_unsigned w32 number }
{
    if number < 0 {
        (number + WORDS) as u32
    } else {
        number as u32
    }
}
