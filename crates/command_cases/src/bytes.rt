//! Reads the contents of sections as bytes.

use crate::fault::CaseFault;
use std::alloc::Global;

/// Returns the number that a word spells.
pub(crate) fn number_of(word: &str) -> Result<usize, CaseFault> {
    match word.parse::<u32>() {
        Ok(number) => Ok(number as usize),
        Err(_) => Err(CaseFault::Number),
    }
}

/// Appends a line to bytes. For a line `%N LINE` it appends N copies of LINE.
fn put_line(bytes: &mut Vec<u8>, line: &str) -> Result<(), CaseFault> {
    let (count, line) = match line.strip_prefix('%').and_then(|line| line.split_once(' ')) {
        Some((count, line)) => (number_of(count)?, line),
        None => (1, line),
    };
    for _ in 0..count {
        bytes.extend_from_slice(line.as_bytes())?;
        bytes.push(b'\n')?;
    }
    Ok(())
}

/// Returns the bytes of lines, each with its line end.
pub(crate) fn lines_of(alloc: Global, lines: &str) -> Result<Vec<u8>, CaseFault> {
    let mut bytes = Vec::new(alloc);
    if !lines.is_empty() {
        for line in lines.split('\n') {
            put_line(&mut bytes, line)?;
        }
    }
    Ok(bytes)
}

/// Returns the bytes of lines, the last without its line end.
pub(crate) fn open_lines_of(alloc: Global, lines: &str) -> Result<Vec<u8>, CaseFault> {
    let mut bytes = lines_of(alloc, lines)?;
    let _line_end = bytes.pop();
    Ok(bytes)
}

/// Returns the value of a hexadecimal digit.
fn digit_of(byte: u8) -> Result<u8, CaseFault> {
    match byte {
        b'0'..=b'9' => Ok(byte - b'0'),
        b'a'..=b'f' => Ok(byte - b'a' + 10),
        _ => Err(CaseFault::Digits),
    }
}

/// Returns the bytes that pairs of digits spell. White space may be anywhere.
pub(crate) fn hex_of(alloc: Global, text: &str) -> Result<Vec<u8>, CaseFault> {
    let mut bytes = Vec::new(alloc);
    let mut first = None;
    for byte in text.as_bytes() {
        if !byte.is_ascii_whitespace() {
            let digit = digit_of(*byte)?;
            match first {
                None => first = Some(digit),
                Some(high) => {
                    bytes.push(high << 4 | digit)?;
                    first = None;
                }
            }
        }
    }
    match first {
        None => Ok(bytes),
        Some(_) => Err(CaseFault::Digits),
    }
}

/// Returns the bytes with `count` of them at a place replaced by others. Bytes after the end don't count.
pub(crate) fn spliced(
    alloc: Global,
    bytes: &[u8],
    place: usize,
    count: usize,
    others: &[u8],
) -> Result<Vec<u8>, CaseFault> {
    let place = place.min(bytes.len());
    let behind = place.saturating_add(count).min(bytes.len());
    let mut made = bytes[..place].to_vec(alloc)?;
    made.extend_from_slice(others)?;
    made.extend_from_slice(&bytes[behind..])?;
    Ok(made)
}
