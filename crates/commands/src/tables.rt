//! `tables`: joins the tables of parts of a campaign, or what the parts of an exploration found.

use crate::campaigns::is_good;
use crate::files::Files;
use crate::joins::print_joined;
use crate::reading::read_text;
use crate::refusal::Refusal;
use campaigning::{Part, join, read_table, table_text};
use command_line::TablesWords;
use std::alloc::Global;
use trace::ByteOut;

/// Reads a table.
fn table_of<'w>(alloc: Global, file: &'w str, text: &str) -> Result<Part, Refusal<'w>> {
    match read_table(alloc, text) {
        Ok(part) => Ok(part),
        Err(fault) => Err(Refusal::Table { file, fault }),
    }
}

/// Reads the tables of the FILEs, in order. The text of the first one is read.
fn read_tables<'w, F: Files>(
    alloc: Global,
    files: &mut F,
    first: &'w str,
    text: &str,
    others: &[&'w str],
) -> Result<Vec<Part>, Refusal<'w>> {
    let mut parts = Vec::new(alloc);
    parts.push(table_of(alloc, first, text)?)?;
    for name in others {
        let text = read_text(files, *name)?;
        parts.push(table_of(alloc, *name, text.as_str())?)?;
    }
    Ok(parts)
}

/// Prints the table that joins these tables. Returns 0 if all its jobs are atomic and finished, else 1.
fn print_table<'w, W: ByteOut>(
    alloc: Global,
    parts: &[Part],
    output: &mut W,
) -> Result<u8, Refusal<'w>> {
    let table = match join(alloc, parts) {
        Ok(table) => table,
        Err(fault) => return Err(Refusal::Join { fault }),
    };
    let text = table_text(alloc, 0, &table)?;
    output.write_all(text.as_bytes())?;
    Ok(u8::from(!is_good(&table)))
}

/// Prints what the FILEs say together: the table that joins tables, or the text that joins those of an exploration's parts. The
/// first FILE decides which of the two they are.
pub(crate) fn perform_tables<'w, F: Files, W: ByteOut>(
    alloc: Global,
    words: &TablesWords<'w>,
    files: &mut F,
    output: &mut W,
) -> Result<u8, Refusal<'w>> {
    let Some((first, others)) = words.files.as_slice().split_first() else {
        let none = Vec::new(alloc);
        return print_table(alloc, none.as_slice(), output);
    };
    let text = read_text(files, *first)?;
    if text.as_str().starts_with("departures ") {
        return print_joined(alloc, files, *first, text.as_str(), others, output);
    }
    let parts = read_tables(alloc, files, *first, text.as_str(), others)?;
    print_table(alloc, parts.as_slice(), output)
}
