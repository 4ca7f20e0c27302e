//! Shifts of ints, by the low five bits of a distance.

ghost use Rattle.std.specs.Prelude.{◌≡◌};
ghost use Rattle.jvms_file.specs.Numbers.{shifted_left, shifted_right, shifted_right_unsigned};

/// Shifts an int left by the low five bits of a distance (JVMS 6.5 ishl).
#[tactic(auto, using(crate::proofs::Wrapped::results))]
pub fn shl(a: i32, distance: i32) -> i32
    ensures { result ≡ shifted_left a distance }
{
    a.wrapping_shl(distance.cast_unsigned())
}

/// Shifts an int right by the low five bits of a distance, and keeps its sign (JVMS 6.5 ishr).
pub fn shr(a: i32, distance: i32) -> i32
    ensures { result ≡ shifted_right a distance }
{
    a.wrapping_shr(distance.cast_unsigned())
}

/// Shifts an int right by the low five bits of a distance, with zeros from the left (JVMS 6.5 iushr).
#[tactic(auto, using(crate::proofs::Wrapped::results))]
pub fn ushr(a: i32, distance: i32) -> i32
    ensures { result ≡ shifted_right_unsigned a distance }
{
    let bits = a.cast_unsigned().wrapping_shr(distance.cast_unsigned());
    bits.cast_signed()
}
