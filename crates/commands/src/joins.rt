//! `tables` of texts that `explore --part` printed.

use crate::files::Files;
use crate::reading::read_text;
use crate::refusal::Refusal;
use exploration_joins::{Found, PartText, join, joined_text, read_part};
use std::alloc::Global;
use trace::ByteOut;

/// Reads the text of a part of an exploration.
fn part_of<'w>(alloc: Global, file: &'w str, text: &str) -> Result<PartText, Refusal<'w>> {
    match read_part(alloc, text) {
        Ok(part) => Ok(part),
        Err(fault) => Err(Refusal::Part { file, fault }),
    }
}

/// Reads the parts of the FILEs, in order. The text of the first one is read.
fn read_parts<'w, F: Files>(
    alloc: Global,
    files: &mut F,
    first: &'w str,
    text: &str,
    others: &[&'w str],
) -> Result<Vec<PartText>, Refusal<'w>> {
    let mut parts = Vec::new(alloc);
    parts.push(part_of(alloc, first, text)?)?;
    for name in others {
        let text = read_text(files, *name)?;
        parts.push(part_of(alloc, *name, text.as_str())?)?;
    }
    Ok(parts)
}

/// Prints what the parts of the FILEs found together. Returns 0 if all is covered, else 1.
pub(crate) fn print_joined<'w, F: Files, W: ByteOut>(
    alloc: Global,
    files: &mut F,
    first: &'w str,
    text: &str,
    others: &[&'w str],
    output: &mut W,
) -> Result<u8, Refusal<'w>> {
    let parts = read_parts(alloc, files, first, text, others)?;
    let joined = match join(alloc, parts.as_slice()) {
        Ok(joined) => joined,
        Err(fault) => return Err(Refusal::JoinParts { fault }),
    };
    let text = joined_text(alloc, &joined)?;
    output.write_all(text.as_bytes())?;
    let is_covered = matches!(&joined.found, Found::Covered { .. });
    Ok(u8::from(!is_covered))
}
