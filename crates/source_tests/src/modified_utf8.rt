//! Tests Modified UTF-8 (JVMS 4.4.7): the ends of its three ranges, and bytes that are UTF-8 or another encoding but
//! not Modified UTF-8.

use mutf8::{Fault, decode, encode};
use std::alloc::Global;
use std::process::Abort;
use std::test::Fail;

/// UTF-16 code units, with their bytes.
const TEXTS: [(&[u16], &[u8]); 3] = [
    (&[], &[]),
    (
        &[0x0000, 0xd83d, 0xde00],
        &[0xc0, 0x80, 0xed, 0xa0, 0xbd, 0xed, 0xb8, 0x80],
    ),
    (
        &[0x0001, 0x007f, 0x0080, 0x07ff, 0x0800, 0xffff],
        &[
            0x01, 0x7f, 0xc2, 0x80, 0xdf, 0xbf, 0xe0, 0xa0, 0x80, 0xef, 0xbf, 0xbf,
        ],
    ),
];

/// Bytes that encode no text, with the first place where no unit begins.
const OTHER_SPELLINGS: [(&str, &[u8], usize); 7] = [
    ("a zero byte", &[0x00], 0),
    ("two bytes for 0041", &[0xc1, 0x81], 0),
    ("three bytes for 07ff", &[0xe0, 0x9f, 0xbf], 0),
    ("four bytes", &[0xf0, 0x9f, 0x98, 0x80], 0),
    ("no first byte", &[0x41, 0x80], 1),
    ("cut", &[0x41, 0xe0], 1),
    ("cut later", &[0xc2, 0x80, 0xe0, 0xa0], 2),
];

/// Returns the place where bytes are refused, if they are.
fn refused_at(alloc: Global, bytes: &[u8]) -> Option<usize> {
    match decode(alloc, bytes) {
        Err(Fault::BadUtf8 { at }) => Some(at),
        Ok(_) | Err(Fault::Memory) => None,
    }
}

/// Asserts that these units are encoded as these bytes, and decoded from them.
fn is_coded(rt: &impl Abort, alloc: Global, units: &[u16], bytes: &[u8]) -> Result<(), Fail> {
    assert_eq!(rt; encode(alloc, units)?.as_slice(), bytes);
    assert_eq!(rt; decode(alloc, bytes)?.as_slice(), units);
    Ok(())
}

fn are_coded(rt: &impl Abort, alloc: Global, texts: &[(&[u16], &[u8])]) -> Result<(), Fail> {
    for (units, bytes) in texts {
        is_coded(rt, alloc, *units, *bytes)?;
    }
    Ok(())
}

fn are_refused(rt: &impl Abort, alloc: Global, cases: &[(&str, &[u8], usize)]) {
    for (name, bytes, at) in cases {
        assert_eq!(rt; refused_at(alloc, *bytes), Some(*at), "{name}");
    }
}

#[test]
fn codes_texts(rt: HostRuntime) -> Result<(), Fail> {
    are_coded(&rt, rt.alloc(), &TEXTS)
}

#[test]
fn refuses_other_spellings(rt: HostRuntime) {
    are_refused(&rt, rt.alloc(), &OTHER_SPELLINGS);
}
