//! Finds the lines of a method's instructions, by the bytes at which they start.

ghost use Rattle.std.specs.Prelude.{◌≡◌, None, IfOk, length, map, slice_get, slice_index_or};
ghost use Rattle.std.specs.Option.{option_and_then, option_map};
ghost use Rattle.jvms_program.specs.Meaning.{code_of};
ghost use Rattle.source_lines.specs.Lines.{AreBelow, code_lines, file_lines};

use crate::table::lines_of_bytes;
use jvms_file::class_file::{ClassFile, Code, Constant};
use jvms_program::attributes::code_of;
use std::alloc::{AllocError, Global};

/// Returns the number of bytes up to the last of these.
fn count_of(bytes: &[u32]) -> usize
    ensures { AreBelow result bytes.now }
{
    let mut count = 0;
    for byte in bytes {
        count = count.max(*byte as usize + 1);
    }
    count
}

/// Returns the lines of these bytes.
fn lines_at(
    alloc: Global,
    lines: &[Option<u16>],
    bytes: &[u32],
) -> Result<Vec<Option<u16>>, AllocError>
    requires { AreBelow (length lines.now) bytes.now }
    ensures { IfOk result (λ at. at.items ≡ map (λ b. slice_index_or lines.now b None) bytes.now) }
{
    let mut at = Vec::with_capacity(alloc, bytes.len())?;
    for byte in bytes {
        at.push(lines[*byte as usize])?;
    }
    Ok(at)
}

/// Returns the lines of the instructions of code.
#[tactic(auto, using(crate::proofs::LineLaws::bytes_length))]
fn code_lines(alloc: Global, pool: &[Constant], code: &Code) -> Result<Vec<Option<u16>>, AllocError>
    ensures { IfOk result (λ lines. lines.items ≡ code_lines pool.now code.now) }
{
    let starts = code.layout.starts.as_slice();
    let lines = lines_of_bytes(alloc, count_of(starts), pool, code.attributes.as_slice())?;
    lines_at(alloc, lines.as_slice(), starts)
}

/// Returns the code of a method of a class file.
fn code_at(file: &ClassFile, method: usize) -> Option<&Code>
    ensures { option_map (λ c. c.now) result ≡ option_and_then (λ m. code_of m.attributes)
        (slice_get file.now.methods method) }
{
    code_of(file.methods.as_slice().get(method)?.attributes.as_slice())
}

/// Returns the lines of the instructions of a method of a class file. There are none if it has no code.
pub(crate) fn file_lines(
    alloc: Global,
    file: &ClassFile,
    method: usize,
) -> Result<Vec<Option<u16>>, AllocError>
    ensures { IfOk result (λ lines. lines.items ≡ file_lines file.now method) }
{
    match code_at(file, method) {
        Some(code) => code_lines(alloc, file.pool.as_slice(), code),
        None => Ok(Vec::new(alloc)),
    }
}
