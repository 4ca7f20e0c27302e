//! Tests the bytes of assembled instructions (JVMS 6.5).

use crate::sources::{assert_code, method};
use std::alloc::Global;
use std::process::Abort;
use std::test::Fail;

/// Lines of a method, with the bytes of its code (JVMS 6.5).
const CODES: [(&str, &[u8]); 14] = [
    (
        "iload 0\nistore 299\ngoto L\nnop\nL:\niload 299\nireturn",
        &[
            0x15, 0x00, 0xc4, 0x36, 0x01, 0x2b, 0xa7, 0x00, 0x04, 0x00, 0xc4, 0x15, 0x01, 0x2b,
            0xac,
        ],
    ),
    ("iload_0\nireturn", &[0x1a, 0xac]),
    (
        "iload 255\naload 256\nret 255",
        &[0x15, 0xff, 0xc4, 0x19, 0x01, 0x00, 0xa9, 0xff],
    ),
    ("iinc 255 -128\nreturn", &[0x84, 0xff, 0x80, 0xb1]),
    (
        "iinc 0 128\nreturn",
        &[0xc4, 0x84, 0x00, 0x00, 0x00, 0x80, 0xb1],
    ),
    (
        "iinc 256 -1\nreturn",
        &[0xc4, 0x84, 0x01, 0x00, 0xff, 0xff, 0xb1],
    ),
    (
        "bipush -1\nsipush -2\nreturn",
        &[0x10, 0xff, 0x11, 0xff, 0xfe, 0xb1],
    ),
    (
        "L: goto_w L\njsr_w L",
        &[0xc8, 0x00, 0x00, 0x00, 0x00, 0xc9, 0xff, 0xff, 0xff, 0xfb],
    ),
    (
        "newarray int\nnewarray boolean\nreturn",
        &[0xbc, 0x0a, 0xbc, 0x04, 0xb1],
    ),
    (
        "L: ifnull L\nif_icmple L\nreturn",
        &[0xc6, 0x00, 0x00, 0xa4, 0xff, 0xfd, 0xb1],
    ),
    (
        "L: tableswitch -1\nL\nM\ndefault : L\nM: return",
        &[
            0xaa, 0x00, 0x00, 0x00, 0x00, 0x00, 0x00, 0x00, 0xff, 0xff, 0xff, 0xff, 0x00, 0x00,
            0x00, 0x00, 0x00, 0x00, 0x00, 0x00, 0x00, 0x00, 0x00, 0x18, 0xb1,
        ],
    ),
    (
        "nop\nnop\nL: lookupswitch\n-5 : L\n7 : M\ndefault : M\nM: return",
        &[
            0x00, 0x00, 0xab, 0x00, 0x00, 0x00, 0x00, 0x1a, 0x00, 0x00, 0x00, 0x02, 0xff, 0xff,
            0xff, 0xfb, 0x00, 0x00, 0x00, 0x00, 0x00, 0x00, 0x00, 0x07, 0x00, 0x00, 0x00, 0x1a,
            0xb1,
        ],
    ),
    // The pool has A, its class, Object, its class, m, (I)I, Code, and then what the instructions name.
    (
        "invokeinterface a/I/f(IJ)V 4\nreturn",
        &[0xb9, 0x00, 0x0d, 0x04, 0x00, 0xb1],
    ),
    (
        "multianewarray [[I 2\nnew A\nanewarray [[I\ncheckcast a/B\nreturn",
        &[
            0xc5, 0x00, 0x09, 0x02, 0xbb, 0x00, 0x02, 0xbd, 0x00, 0x09, 0xc0, 0x00, 0x0b, 0xb1,
        ],
    ),
];

/// Asserts that the lines of a method are assembled to these bytes.
fn assert_lines(rt: &impl Abort, alloc: Global, lines: &str, bytes: &[u8]) -> Result<(), Fail> {
    let text = method(alloc, "(I)I", 300, lines)?;
    let length = assert_code(rt, alloc, text.as_str(), bytes)?;
    assert_eq!(rt; length, Some(bytes.len()), "{lines}");
    Ok(())
}

fn assert_codes(rt: &impl Abort, alloc: Global, codes: &[(&str, &[u8])]) -> Result<(), Fail> {
    for (lines, bytes) in codes {
        assert_lines(rt, alloc, *lines, *bytes)?;
    }
    Ok(())
}

#[test]
fn instructions_are_written_as_they_are_spelled(rt: HostRuntime) -> Result<(), Fail> {
    assert_codes(&rt, rt.alloc(), &CODES)
}
