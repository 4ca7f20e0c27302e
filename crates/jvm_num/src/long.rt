//! The arithmetic of longs, with their conversions from and to int.

ghost use Rattle.std.specs.Prelude.{◌≡◌};
ghost use Rattle.std.specs.Int.{w64, int_bit_and, int_bit_or, int_bit_xor};
ghost use Rattle.jvms_file.specs.Numbers.{sum_in, difference_in, product_in, quotient_in, remainder};
ghost use Rattle.jvms_file.specs.Numbers.{shifted_left_in, shifted_right_in, shifted_right_unsigned_in};
ghost use Rattle.jvms_file.specs.Numbers.{long_negation, int_of_long, comparison};

use crate::arithmetic::wrap;

/// Adds two longs (JVMS 6.5 ladd).
#[tactic(auto, using(std::proofs::lemmas::Int::wraps))]
pub fn ladd(a: i64, b: i64) -> i64
    ensures { result ≡ sum_in w64 a b }
{
    a.wrapping_add(b)
}

/// Subtracts the second long from the first (JVMS 6.5 lsub).
#[tactic(auto, using(std::proofs::lemmas::Int::wraps))]
pub fn lsub(a: i64, b: i64) -> i64
    ensures { result ≡ difference_in w64 a b }
{
    a.wrapping_sub(b)
}

/// Multiplies two longs (JVMS 6.5 lmul).
pub fn lmul(a: i64, b: i64) -> i64
    ensures { result ≡ product_in w64 a b }
{
    a.wrapping_mul(b)
}

/// Negates a long (JVMS 6.5 lneg). The least long gives itself.
#[tactic(auto, using(std::proofs::lemmas::Int::wraps))]
#[inline(always)]
pub fn lneg(a: i64) -> i64
    ensures { result ≡ long_negation a }
{
    a.wrapping_neg()
}

/// Divides the first long by the second and rounds to zero, or returns `None` if the divisor is 0
/// (JVMS 6.5 ldiv). The least long by -1 gives itself.
#[tactic(auto, using(crate::proofs::Wrapped::results))]
pub fn ldiv(a: i64, b: i64) -> Option<i64>
    ensures { result ≡ quotient_in w64 a b }
{
    if b == 0 {
        None
    } else {
        Some(a.wrapping_div(b))
    }
}

/// Returns the remainder of a division, with the dividend's sign, or `None` if the divisor is 0
/// (JVMS 6.5 lrem). The least long by -1 leaves 0.
#[tactic(auto, using(crate::proofs::Wrapped::results))]
pub fn lrem(a: i64, b: i64) -> Option<i64>
    ensures { result ≡ remainder a b }
{
    if b == 0 {
        None
    } else {
        Some(a.wrapping_rem(b))
    }
}

/// Returns the bits that are set in both longs (JVMS 6.5 land).
pub fn land(a: i64, b: i64) -> i64
    ensures { result ≡ int_bit_and w64 a b }
{
    a & b
}

/// Returns the bits that are set in either long (JVMS 6.5 lor).
pub fn lor(a: i64, b: i64) -> i64
    ensures { result ≡ int_bit_or w64 a b }
{
    a | b
}

/// Returns the bits that are set in just one of the longs (JVMS 6.5 lxor).
pub fn lxor(a: i64, b: i64) -> i64
    ensures { result ≡ int_bit_xor w64 a b }
{
    a ^ b
}

/// Shifts a long left by the low six bits of a distance (JVMS 6.5 lshl).
#[tactic(auto, using(crate::proofs::Wrapped::results))]
pub fn lshl(a: i64, distance: i32) -> i64
    ensures { result ≡ shifted_left_in w64 a distance }
{
    a.wrapping_shl(distance.cast_unsigned())
}

/// Shifts a long right by the low six bits of a distance, and keeps its sign (JVMS 6.5 lshr).
pub fn lshr(a: i64, distance: i32) -> i64
    ensures { result ≡ shifted_right_in w64 a distance }
{
    a.wrapping_shr(distance.cast_unsigned())
}

/// Shifts a long right by the low six bits of a distance, with zeros from the left (JVMS 6.5 lushr).
#[tactic(auto, using(crate::proofs::Wrapped::results))]
pub fn lushr(a: i64, distance: i32) -> i64
    ensures { result ≡ shifted_right_unsigned_in w64 a distance }
{
    let bits = a.cast_unsigned().wrapping_shr(distance.cast_unsigned());
    bits.cast_signed()
}

/// Keeps the low 32 bits of a long, as an int (JVMS 6.5 l2i).
#[inline(always)]
pub fn l2i(n: i64) -> i32
    ensures { result ≡ int_of_long n }
{
    wrap(n)
}

/// Extends an int to a long of the same value (JVMS 6.5 i2l).
#[inline(always)]
pub fn i2l(n: i32) -> i64
    ensures { result ≡ n }
{
    i64::from(n)
}

/// Compares two longs (JVMS 6.5 lcmp): 1 if the first is greater, -1 if it is less, and 0 if they are
/// equal.
#[inline(always)]
pub fn lcmp(a: i64, b: i64) -> i32
    ensures { result ≡ comparison a b }
{
    if a > b {
        1
    } else if a < b {
        -1
    } else {
        0
    }
}
