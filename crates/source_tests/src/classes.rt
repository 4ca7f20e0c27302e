//! Tests that classes are written as they were read (JVMS 4.1).

use crate::class_bytes::{G, H, with_code};
use class_file::{read, write};
use std::alloc::Global;
use std::test::Fail;

/// Reads a class from bytes and returns the bytes that it is written as.
fn rewritten(alloc: Global, bytes: &[u8]) -> Result<Vec<u8>, Fail> {
    let class = read(alloc, bytes)?;
    let written = write(alloc, &class)?;
    Ok(written)
}

#[test]
fn writes_what_it_read(rt: HostRuntime) -> Result<(), Fail> {
    assert!(rt; rewritten(rt.alloc(), &G)?.as_slice() == G.as_slice());
    assert!(rt; rewritten(rt.alloc(), &H)?.as_slice() == H.as_slice());
    Ok(())
}

/// An `iload_0`, a `tableswitch` with two bytes of padding, the `iload_0` that is its one target, and an `ireturn`.
const SWITCH: [u8; 22] = [
    0x1a, 0xaa, 0x7f, 0x7e, 0x00, 0x00, 0x00, 0x13, 0x00, 0x00, 0x00, 0x00, 0x00, 0x00, 0x00, 0x00,
    0x00, 0x00, 0x00, 0x13, 0x1a, 0xac,
];

#[test]
fn writes_pads_as_0(rt: HostRuntime) -> Result<(), Fail> {
    let bytes = with_code(rt.alloc(), &SWITCH)?;
    let written = rewritten(rt.alloc(), &bytes)?;
    let mut padded = SWITCH;
    padded[2] = 0;
    padded[3] = 0;
    assert!(rt; written.as_slice() == with_code(rt.alloc(), &padded)?.as_slice());
    assert!(rt; rewritten(rt.alloc(), &written)?.as_slice() == written.as_slice());
    Ok(())
}
