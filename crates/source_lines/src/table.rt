//! Reads LineNumberTable attributes (JVMS 4.7.12), and finds the line of each byte of a method's code.

ghost use Rattle.std.specs.Prelude.{◌≡◌, ◌≤◌, ◌*◌, None, IfOk, drop, length, replicate, slice_set, Some};
ghost use Rattle.std.specs.List.{flat_map, fold};
ghost use Rattle.jvms_file.specs.Bytes.{number};
ghost use Rattle.source_lines.specs.SourceLines.{is_whole, line_starts, starts_in, table_starts};
ghost use Rattle.source_lines.specs.Lines.{filled, lines_of_bytes, with_start};

use crate::bytes::u2;
use crate::pool::is_named;
use jvms_file::class_file::{Constant, KeptAttribute};
use std::alloc::{AllocError, Global};

/// The length of an entry of a table, in bytes.
const ENTRY: usize = 4;

/// An entry of a LineNumberTable: the line of the code that begins at this byte (JVMS 4.7.12).
#[derive(Clone, Copy)]
pub(crate) struct LineStart {
    start: u16,
    line: u16,
}

/// Marks the byte of a start with its line. Does nothing for a byte after the last.
fn mark(lines: &mut [Option<u16>], start: LineStart)
    ensures { lines.new ≡ with_start lines.old start }
{
    let byte = usize::from(start.start);
    if byte < lines.len() {
        lines[byte] = Some(start.line);
    }
}

/// Reads the entry at the front of bytes.
fn first_start(bytes: &[u8]) -> LineStart
    requires { 4 ≤ length bytes.now }
    ensures { result ≡ record { start = number 2 bytes.now; line = number 2 (drop 2 bytes.now) } }
{
    LineStart {
        start: u2(bytes),
        line: u2(&bytes[2..]),
    }
}

/// Returns the bytes that follow the entry at their front.
fn after_first(bytes: &[u8]) -> &[u8]
    requires { 4 ≤ length bytes.now }
    ensures { result.now ≡ drop 4 bytes.now }
{
    &bytes[ENTRY..]
}

/// Reads entries, and marks the bytes of their starts, in order.
#[tactic(auto, using(crate::proofs::TableLaws::next_start))]
fn mark_starts(lines: &mut [Option<u16>], count: usize, entries: &[u8])
    requires { length entries.now ≡ 4 * count }
    ensures { lines.new ≡ fold with_start lines.old (line_starts count entries.now) }
{
    let mut rest = entries;
    for _place in 0..count {
        mark(lines, first_start(rest));
        rest = after_first(rest);
    }
}

/// Returns whether the length of a table's content matches its count.
fn is_whole(content: &[u8]) -> bool
    ensures { result ≡ is_whole content.now }
{
    content.len() >= 2 && content.len() == 2 + ENTRY * usize::from(u2(content))
}

/// Marks the bytes of the starts of a table.
fn mark_table(lines: &mut [Option<u16>], content: &[u8])
    ensures { lines.new ≡ fold with_start lines.old (table_starts content.now) }
{
    if is_whole(content) {
        mark_starts(lines, usize::from(u2(content)), &content[2..]);
    }
}

/// Marks the bytes of the starts of an attribute.
fn mark_attribute(lines: &mut [Option<u16>], pool: &[Constant], attribute: &KeptAttribute)
    ensures { lines.new ≡ fold with_start lines.old (starts_in pool.now attribute.now) }
{
    if is_named(pool, "LineNumberTable", attribute) {
        mark_table(lines, attribute.bytes.as_slice());
    }
}

/// Marks the bytes of the starts of attributes.
fn mark_attributes(lines: &mut [Option<u16>], pool: &[Constant], attributes: &[KeptAttribute])
    ensures { lines.new ≡ fold with_start lines.old (flat_map (starts_in pool.now) attributes.now) }
{
    for attribute in attributes {
        mark_attribute(lines, pool, attribute);
    }
}

/// Gives each byte that isn't marked the line of the byte before it.
fn fill(lines: &mut [Option<u16>])
    ensures { lines.new ≡ filled None lines.old }
{
    let mut last = None;
    for line in lines.iter_mut() {
        match line {
            Some(_) => last = *line,
            None => *line = last,
        }
    }
}

/// Marks the bytes of the starts of attributes, and gives each byte that isn't marked the line of the byte before it.
fn mark_and_fill(lines: &mut [Option<u16>], pool: &[Constant], attributes: &[KeptAttribute])
    ensures { lines.new ≡ filled None
        (fold with_start lines.old (flat_map (starts_in pool.now) attributes.now)) }
{
    mark_attributes(lines, pool, attributes);
    fill(lines);
}

/// Returns as many unmarked bytes.
fn unmarked(alloc: Global, count: usize) -> Result<Vec<Option<u16>>, AllocError>
    ensures { IfOk result (λ lines. lines.items ≡ replicate count None) }
{
    let mut lines = Vec::new(alloc);
    lines.resize(count, None)?;
    Ok(lines)
}

/// Returns the lines of the first `count` bytes of code that has these attributes.
pub(crate) fn lines_of_bytes(
    alloc: Global,
    count: usize,
    pool: &[Constant],
    attributes: &[KeptAttribute],
) -> Result<Vec<Option<u16>>, AllocError>
    ensures { IfOk result (λ lines.
        lines.items ≡ lines_of_bytes count (flat_map (starts_in pool.now) attributes.now)) }
{
    let mut lines = unmarked(alloc, count)?;
    mark_and_fill(&mut lines, pool, attributes);
    Ok(lines)
}
