//! Bitwise operations on ints.

ghost use Rattle.std.specs.Prelude.{◌≡◌};
ghost use Rattle.std.specs.Int.{w32, int_bit_and, int_bit_or, int_bit_xor};

/// Returns the bits that are set in both ints (JVMS 6.5 iand).
pub fn and(a: i32, b: i32) -> i32
    ensures { result ≡ int_bit_and w32 a b }
{
    a & b
}

/// Returns the bits that are set in either int (JVMS 6.5 ior).
pub fn or(a: i32, b: i32) -> i32
    ensures { result ≡ int_bit_or w32 a b }
{
    a | b
}

/// Returns the bits that are set in just one of the ints (JVMS 6.5 ixor).
pub fn xor(a: i32, b: i32) -> i32
    ensures { result ≡ int_bit_xor w32 a b }
{
    a ^ b
}
