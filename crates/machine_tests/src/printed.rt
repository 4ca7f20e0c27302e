//! Tests what is printed of texts and numbers.

use jvms_machine::action::Printed;
use printing::{put_line, put_text};
use std::alloc::{AllocError, Global};
use std::process::Abort;
use std::test::Fail;

/// UTF-16 code units, with the bytes that are printed. Half of a supplementary character is printed as a question mark.
const TEXTS: [(&[u16], &[u8]); 4] = [
    (&[], b""),
    (&[0x0000, 0xd83d, 0xde00], &[0x00, 0xf0, 0x9f, 0x98, 0x80]),
    (&[0xd83d], b"?"),
    (&[0xde00, 0xd83d], b"??"),
];

fn assert_printed(rt: &impl Abort, alloc: Global, units: &[u16], bytes: &[u8]) -> Result<(), Fail> {
    let mut out = Vec::new(alloc);
    put_text(&mut out, units)?;
    assert_eq!(rt; out.as_slice(), bytes);
    Ok(())
}

fn assert_all_printed(
    rt: &impl Abort,
    alloc: Global,
    texts: &[(&[u16], &[u8])],
) -> Result<(), Fail> {
    for (units, bytes) in texts {
        assert_printed(rt, alloc, *units, *bytes)?;
    }
    Ok(())
}

/// Prints an empty line, the least int, a string that ends no line, and null.
fn put_lines(out: &mut Vec<u8>) -> Result<(), AllocError> {
    let string = Printed::Text { reference: 1 };
    put_line(out, Printed::Nothing, None, true)?;
    put_line(out, Printed::Int(-2147483648), None, true)?;
    put_line(out, string, Some(&[0x00e9]), false)?;
    put_line(out, Printed::Null, None, true)
}

#[test]
fn texts_and_lines_are_printed(rt: HostRuntime) -> Result<(), Fail> {
    assert_all_printed(&rt, rt.alloc(), &TEXTS)?;
    let mut out = Vec::new(rt.alloc());
    put_lines(&mut out)?;
    let lines = b"\n-2147483648\n\xc3\xa9null\n";
    assert_eq!(rt; out.as_slice(), lines.as_slice());
    Ok(())
}
