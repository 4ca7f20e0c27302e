//! Operations on two numbers, selected by the instruction's kind.

ghost use Rattle.std.specs.Prelude.{◌≡◌};
ghost use Rattle.jvms_file.specs.Numbers.{binary_result, division_result};
ghost use Rattle.jvms_file.specs.Numbers.{long_binary_result, long_division_result, long_shift_result};

use crate::arithmetic::{add, div, mul, rem, sub};
use crate::bits::{and, or, xor};
use crate::long::{ladd, land, ldiv, lmul, lor, lrem, lshl, lshr, lsub, lushr, lxor};
use crate::shift::{shl, shr, ushr};
use jvms_file::insn;

/// Returns the result of an operation on two ints that always gives one (JVMS 6.5 iadd, isub, imul, ishl, ishr, iushr,
/// iand, ior, ixor).
#[inline(always)]
pub fn binary(op: insn::Binary, a: i32, b: i32) -> i32
    ensures { result ≡ binary_result op a b }
{
    match op {
        insn::Binary::Add => add(a, b),
        insn::Binary::Subtract => sub(a, b),
        insn::Binary::Multiply => mul(a, b),
        insn::Binary::ShiftLeft => shl(a, b),
        insn::Binary::ShiftRight => shr(a, b),
        insn::Binary::ShiftRightUnsigned => ushr(a, b),
        insn::Binary::And => and(a, b),
        insn::Binary::Or => or(a, b),
        insn::Binary::ExclusiveOr => xor(a, b),
    }
}

/// Divides two ints, or returns `None` if the divisor is 0 (JVMS 6.5 idiv, irem).
#[inline(always)]
pub fn divide(op: insn::Division, a: i32, b: i32) -> Option<i32>
    ensures { result ≡ division_result op a b }
{
    match op {
        insn::Division::Quotient => div(a, b),
        insn::Division::Remainder => rem(a, b),
    }
}

/// Returns the result of an operation on two longs that always gives one (JVMS 6.5 ladd, lsub, lmul, land, lor, lxor).
#[inline(always)]
pub fn long_binary(op: insn::LongBinary, a: i64, b: i64) -> i64
    ensures { result ≡ long_binary_result op a b }
{
    match op {
        insn::LongBinary::Add => ladd(a, b),
        insn::LongBinary::Subtract => lsub(a, b),
        insn::LongBinary::Multiply => lmul(a, b),
        insn::LongBinary::And => land(a, b),
        insn::LongBinary::Or => lor(a, b),
        insn::LongBinary::ExclusiveOr => lxor(a, b),
    }
}

/// Divides two longs, or returns `None` if the divisor is 0 (JVMS 6.5 ldiv, lrem).
#[inline(always)]
pub fn long_divide(op: insn::Division, a: i64, b: i64) -> Option<i64>
    ensures { result ≡ long_division_result op a b }
{
    match op {
        insn::Division::Quotient => ldiv(a, b),
        insn::Division::Remainder => lrem(a, b),
    }
}

/// Shifts a long by an int (JVMS 6.5 lshl, lshr, lushr).
#[inline(always)]
pub fn long_shift(op: insn::LongShift, a: i64, distance: i32) -> i64
    ensures { result ≡ long_shift_result op a distance }
{
    match op {
        insn::LongShift::Left => lshl(a, distance),
        insn::LongShift::Right => lshr(a, distance),
        insn::LongShift::RightUnsigned => lushr(a, distance),
    }
}
