//! Arithmetic on the ints and longs of the Java Virtual Machine. Each function returns exactly the number of the
//! definition that its contract names, by the sections of the Java Virtual Machine Specification, Java SE 8 edition
//! (JVMS). All are total, and none allocates memory.
#![tactic(auto)]

mod arithmetic;
mod bits;
mod long;
mod narrowing;
mod operation;
mod shift;

pub use arithmetic::{add, div, mul, neg, rem, sub, wrap};
pub use bits::{and, or, xor};
pub use long::{
    i2l, l2i, ladd, land, lcmp, ldiv, lmul, lneg, lor, lrem, lshl, lshr, lsub, lushr, lxor,
};
pub use narrowing::narrow;
pub use operation::{binary, divide, long_binary, long_divide, long_shift};
pub use shift::{shl, shr, ushr};
