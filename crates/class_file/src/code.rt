//! The code of a method (JVMS 4.7.3), and the classes of the exceptions that it declares (JVMS 4.7.5).

ghost use Rattle.std.specs.Prelude.{◌≡◌, ◌≤◌, length, IfOk};
ghost use Rattle.jvms_file.specs.Code.{handlers_of};
ghost use Rattle.jvms_file.specs.Members.{handler_at, code_at, class_number_at, exceptions_at};
ghost use Rattle.jvms_file.specs.Reading.{Gives};
ghost use Rattle.file_bytes.specs.Reading.{Finds};
ghost use Rattle.class_file.specs.Contents.{framed_by};
ghost use Rattle.class_file.specs.Wanted.{code_bytes_at, exception_table_at, handler_placed, classes_at};

use crate::attribute::kept_attributes_at;
use crate::content::{Content, want_all};
use const_pool::{Pool, ScannedPool};
use file_bytes::{Part, bytes_at, parts_of, u2_at, u4_at, want};
use insn::{Starts, decode, handler, layout};
use jvms_file::class_file::{Code, Handler};
use jvms_file::fault::{ClassFault, ReadError};
use shared_data::items::Items;
use std::alloc::Global;

/// The greatest number of bytes of code (JVMS 4.7.3).
const MOST_CODE: u32 = 65535;

/// The reader of entries of the exception table in a class with this pool. Their bounds and targets are bytes. `cut` is
/// the fault of missing bytes.
#[derive(Clone, Copy)]
struct Handlers<'p> {
    pool: &'p Pool,
    cut: ClassFault,
}

impl Part<Handler> for Handlers<'_> {
    ghost at = { λ h _. handler_at h.pool.now h.cut };

    fn part_at<'a>(
        &self,
        _alloc: Global,
        _seen: &[Handler],
        bytes: &'a [u8],
    ) -> Result<(Handler, &'a [u8]), ReadError> {
        let (start, rest) = u2_at(self.cut, bytes)?;
        let (end, rest) = u2_at(self.cut, rest)?;
        let (target, rest) = u2_at(self.cut, rest)?;
        let (catch_type, rest) = u2_at(self.cut, rest)?;
        want(
            catch_type == 0 || self.pool.is_class(catch_type),
            ClassFault::Index,
        )?;
        let handler = Handler {
            start: u32::from(start),
            end: u32::from(end),
            target: u32::from(target),
            catch_type,
        };
        Ok((handler, rest))
    }
}

/// Reads exception_table_length and the entries of the table, and returns them with the bytes after them.
fn table_at<'a>(
    alloc: Global,
    pool: &Pool,
    cut: ClassFault,
    bytes: &'a [u8],
) -> Result<(Items<Handler>, &'a [u8]), ReadError>
    ensures { Gives (λ x. (x.0, x.1.now)) result (exception_table_at pool.now cut bytes.now) }
{
    let (count, rest) = u2_at(cut, bytes)?;
    parts_of(alloc, &Handlers { pool, cut }, usize::from(count), rest)
}

/// Splits off the bytes of the instructions, after their length, and returns them with the bytes after them.
fn code_bytes<'a>(
    cut: ClassFault,
    code_length: u32,
    bytes: &'a [u8],
) -> Result<(&'a [u8], &'a [u8]), ClassFault>
    ensures exact { Finds (λ x. (x.0.now, x.1.now)) result
        (code_bytes_at cut code_length bytes.now) }
    ensures few { IfOk result (λ x. length x.0.now ≤ 65535) }
{
    if code_length == 0 || code_length > MOST_CODE {
        return Err(ClassFault::CodeLength);
    }
    let count = code_length as usize;
    if bytes.len() < count {
        return Err(cut);
    }
    Ok(bytes.split_at(count))
}

/// Returns an entry of the exception table with places for bytes.
fn with_places(starts: &Starts, code_length: usize, entry: Handler) -> Result<Handler, ClassFault>
    ensures { Finds (λ x. x) result (handler_placed starts.now code_length entry) }
{
    match handler(starts, code_length, entry) {
        Some(placed) => Ok(placed),
        None => Err(ClassFault::Handler),
    }
}

/// Returns the entries of the exception table with places for bytes.
fn handlers_of(
    alloc: Global,
    starts: &Starts,
    code_length: usize,
    handlers: &[Handler],
) -> Result<Items<Handler>, ReadError>
    ensures { Gives (λ x. x) result (handlers_of starts.now code_length handlers.now) }
{
    let mut placed = Items::new(alloc);
    let mut rest = handlers;
    while let [entry, behind @ ..] = rest {
        let one = with_places(starts, code_length, *entry)?;
        placed.push(one)?;
        rest = behind;
    }
    Ok(placed)
}

/// Reads the content of a Code attribute (JVMS 4.7.3), and returns it with the bytes after the attribute.
#[tactic(auto, unfolding(jvms_file::specs::Members::code_at))]
pub(crate) fn code_at<'a>(
    alloc: Global,
    pool: &ScannedPool,
    major: u16,
    content: Content<'a>,
) -> Result<(Code, &'a [u8]), ReadError>
    ensures { Gives (λ x. (x.0, x.1.now)) result
        (code_at pool.now major (framed_by content.entry)) }
{
    let (max_stack, rest) = u2_at(content.cut, content.bytes)?;
    let (max_locals, rest) = u2_at(content.cut, rest)?;
    let (code_length, rest) = u4_at(content.cut, rest)?;
    let (bytes, rest) = code_bytes(content.cut, code_length, rest)?;
    let (table, rest) = table_at(alloc, pool.pool(), content.cut, rest)?;
    let (attributes, rest) = kept_attributes_at(alloc, pool.pool(), content.cut, rest)?;
    want_all(content, rest)?;
    let decoded = decode(alloc, pool, major, bytes)?;
    let handlers = handlers_of(
        alloc,
        &decoded.starts,
        code_length as usize,
        table.as_slice(),
    )?;
    let layout = layout(alloc, decoded.starts, decoded.insns.as_slice(), bytes)?;
    let code = Code {
        max_stack,
        max_locals,
        layout,
        insns: decoded.insns,
        handlers,
        attributes,
    };
    Ok((code, content.after))
}

/// The reader of numbers of Class entries in a class with this pool. `cut` is the fault of missing bytes.
#[derive(Clone, Copy)]
struct ClassNumbers<'p> {
    pool: &'p Pool,
    cut: ClassFault,
}

impl Part<u16> for ClassNumbers<'_> {
    ghost at = { λ n _. class_number_at n.pool.now n.cut };

    fn part_at<'a>(
        &self,
        _alloc: Global,
        _seen: &[u16],
        bytes: &'a [u8],
    ) -> Result<(u16, &'a [u8]), ReadError> {
        let (number, rest) = u2_at(self.cut, bytes)?;
        want(self.pool.is_class(number), ClassFault::Index)?;
        Ok((number, rest))
    }
}

/// Reads number_of_exceptions and the numbers of their classes, and returns them with the bytes after them.
fn classes_at<'a>(
    alloc: Global,
    pool: &Pool,
    cut: ClassFault,
    bytes: &'a [u8],
) -> Result<(Items<u16>, &'a [u8]), ReadError>
    ensures { Gives (λ x. (x.0, x.1.now)) result (classes_at pool.now cut bytes.now) }
{
    let (count, rest) = u2_at(cut, bytes)?;
    parts_of(alloc, &ClassNumbers { pool, cut }, usize::from(count), rest)
}

/// Reads the content of an Exceptions attribute (JVMS 4.7.5), and returns it with the bytes after the attribute.
pub(crate) fn exceptions_at<'a>(
    alloc: Global,
    pool: &Pool,
    content: Content<'a>,
) -> Result<(Items<u16>, &'a [u8]), ReadError>
    ensures { Gives (λ x. (x.0, x.1.now)) result
        (exceptions_at pool.now (framed_by content.entry)) }
{
    let (classes, rest) = classes_at(alloc, pool, content.cut, content.bytes)?;
    want_all(content, rest)?;
    Ok((classes, content.after))
}
