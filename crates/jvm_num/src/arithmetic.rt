//! Sums, differences, products and quotients of ints.

ghost use Rattle.std.specs.Prelude.{◌≡◌};
ghost use Rattle.jvms_file.specs.Numbers.{wrap, sum, difference, product, negation, quotient, remainder};

/// Returns the one int that is congruent to `n` modulo 2^32 (JVMS 2.11.3).
pub fn wrap(n: i64) -> i32
    ensures { result ≡ wrap n }
{
    (n.rem_euclid(1 << 32) as u32).cast_signed()
}

/// Adds two ints (JVMS 6.5 iadd).
#[tactic(auto, using(std::proofs::lemmas::Int::wraps))]
pub fn add(a: i32, b: i32) -> i32
    ensures { result ≡ sum a b }
{
    a.wrapping_add(b)
}

/// Subtracts the second int from the first (JVMS 6.5 isub).
#[tactic(auto, using(std::proofs::lemmas::Int::wraps))]
pub fn sub(a: i32, b: i32) -> i32
    ensures { result ≡ difference a b }
{
    a.wrapping_sub(b)
}

/// Multiplies two ints (JVMS 6.5 imul).
pub fn mul(a: i32, b: i32) -> i32
    ensures { result ≡ product a b }
{
    a.wrapping_mul(b)
}

/// Negates an int (JVMS 6.5 ineg). The least int gives itself.
#[tactic(auto, using(std::proofs::lemmas::Int::wraps))]
#[inline(always)]
pub fn neg(a: i32) -> i32
    ensures { result ≡ negation a }
{
    a.wrapping_neg()
}

/// Divides the first int by the second and rounds to zero, or returns `None` if the divisor is 0 (JVMS 6.5 idiv). The
/// least int by -1 gives itself.
#[tactic(auto, using(crate::proofs::Wrapped::results))]
pub fn div(a: i32, b: i32) -> Option<i32>
    ensures { result ≡ quotient a b }
{
    if b == 0 {
        None
    } else {
        Some(a.wrapping_div(b))
    }
}

/// Returns the remainder of a division, with the dividend's sign, or `None` if the divisor is 0 (JVMS 6.5 irem). The
/// least int by -1 leaves 0.
#[tactic(auto, using(crate::proofs::Wrapped::results))]
pub fn rem(a: i32, b: i32) -> Option<i32>
    ensures { result ≡ remainder a b }
{
    if b == 0 {
        None
    } else {
        Some(a.wrapping_rem(b))
    }
}
