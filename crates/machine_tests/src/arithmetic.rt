//! Tests arithmetic on ints by worked values, each from the description of an instruction (JVMS 6.5).

use jvm_num::{binary, divide, narrow, neg, wrap};
use jvms_file::insn::{Binary, Division, Narrow};
use std::process::Abort;

/// Operations on two ints, with their results.
const RESULTS: [(Binary, i32, i32, i32); 18] = [
    (Binary::Add, 2147483647, 1, -2147483648),
    (Binary::Add, 6, 4, 10),
    (Binary::Subtract, -2147483648, 1, 2147483647),
    (Binary::Subtract, 6, 4, 2),
    (Binary::Multiply, 46341, 46341, -2147479015),
    (Binary::Multiply, 6, 4, 24),
    (Binary::ShiftLeft, 1, 33, 2),
    (Binary::ShiftLeft, 6, 4, 96),
    (Binary::ShiftRight, -8, 1, -4),
    (Binary::ShiftRight, -6, 1, -3),
    (Binary::ShiftRightUnsigned, -1, 28, 15),
    (Binary::ShiftRightUnsigned, -6, 1, 2147483645),
    (Binary::And, 12, 10, 8),
    (Binary::And, 6, 4, 4),
    (Binary::Or, 12, 10, 14),
    (Binary::Or, 6, 1, 7),
    (Binary::ExclusiveOr, 12, -1, -13),
    (Binary::ExclusiveOr, 6, 4, 2),
];

/// Divisions of two ints, with their results, if there are any.
const QUOTIENTS: [(Division, i32, i32, Option<i32>); 8] = [
    (Division::Quotient, -2147483648, -1, Some(-2147483648)),
    (Division::Remainder, -2147483648, -1, Some(0)),
    (Division::Quotient, -7, 2, Some(-3)),
    (Division::Remainder, -7, 2, Some(-1)),
    (Division::Quotient, 7, -2, Some(-3)),
    (Division::Remainder, 7, -2, Some(1)),
    (Division::Quotient, 1, 0, None),
    (Division::Remainder, 1, 0, None),
];

/// Ints, with their values in the range of a smaller type.
const NARROWED: [(Narrow, i32, i32); 4] = [
    (Narrow::Byte, 200, -56),
    (Narrow::Char, -1, 65535),
    (Narrow::Short, 40000, -25536),
    (Narrow::Boolean, 3, 1),
];

fn assert_results(rt: &impl Abort, cases: &[(Binary, i32, i32, i32)]) {
    for (op, a, b, wanted) in cases {
        assert_eq!(rt; binary(*op, *a, *b), *wanted);
    }
}

fn assert_quotients(rt: &impl Abort, cases: &[(Division, i32, i32, Option<i32>)]) {
    for (op, a, b, wanted) in cases {
        assert_eq!(rt; divide(*op, *a, *b), *wanted);
    }
}

fn assert_narrowed(rt: &impl Abort, cases: &[(Narrow, i32, i32)]) {
    for (to, n, wanted) in cases {
        assert_eq!(rt; narrow(*to, *n), *wanted);
    }
}

#[test]
fn ints_are_worked_out(rt: HostRuntime) {
    assert_results(&rt, &RESULTS);
    assert_quotients(&rt, &QUOTIENTS);
    assert_narrowed(&rt, &NARROWED);
    assert_eq!(rt; neg(-2147483648), -2147483648);
    assert_eq!(rt; wrap(4294967301), 5);
    assert_eq!(rt; wrap(-2147483649), 2147483647);
}
