//! Reads the lines of a source in order, and returns its syntax tree.

ghost use Rattle.std.specs.Prelude.{◌≡◌, ℕ, List, length, IfOk, codes};
ghost use Rattle.std.specs.Option.{unwrap_or};
ghost use Rattle.std.specs.Str.Lines.{lines};
ghost use Rattle.jasmin.specs.Reading.{empty_reading, with_lines, last_line, source_of_reading, source_of};
ghost use Rattle.jasmin_reader.specs.Readings.{Reads, IsRead};

use crate::fault::SourceFault;
use crate::line::with_line;
use crate::open::Open;
use jasmin::reading::Reading;
use jasmin::source::Source;
use jasmin::statement::Flaw;
use shared_data::shared::Text;
use shared_data::texts::ascii_text;
use std::alloc::{AllocError, Global};

/// Returns the state of the reader after the lines of a text and the number of lines, or the first faulty line.
fn with_lines(alloc: Global, text: &str) -> Result<(Open, usize), SourceFault>
    ensures read { Reads (λ x. x.0) result (with_lines 0 empty_reading (lines text.now)) }
    ensures count { IfOk result (λ x. x.1 ≡ length (lines text.now)) }
{
    let mut read = Open::new(alloc)?;
    let mut number = 0;
    for line in text.lines() {
        number += 1;
        read = match with_line(alloc, read, line) {
            Ok(read) => read,
            Err(fault) => return Err(SourceFault::at(number, fault)),
        };
    }
    Ok((read, number))
}

/// Returns the number of the last line, and 1 for a text without lines. It is reported if something is missing.
#[tactic(auto, using(crate::proofs::LinesRead::last_of_none, crate::proofs::LinesRead::last_of_some))]
fn last_line(count: usize) -> usize
    ensures { (ls : List (List ℕ)) → count ≡ length ls → result ≡ last_line ls }
{
    if count == 0 { 1 } else { count }
}

/// Returns the superclass, which is `java/lang/Object` if no line gives it.
fn superclass_of(alloc: Global, superclass: Option<Text>) -> Result<Text, AllocError>
    ensures { IfOk result (λ name. name ≡ unwrap_or superclass (codes "java/lang/Object")) }
{
    match superclass {
        Some(name) => Ok(name),
        None => ascii_text(alloc, "java/lang/Object"),
    }
}

/// Returns the syntax tree, if there is a class and no method is open.
///
/// # Errors
///
/// Returns `Missing` for any other, or `Memory` if memory ran out.
fn source_of_reading(alloc: Global, last: usize, reading: Reading) -> Result<Source, SourceFault>
    ensures { IsRead result (source_of_reading last reading) }
{
    match (reading.name, reading.method) {
        (Some(name), None) => Ok(Source {
            access: reading.access,
            name,
            superclass: superclass_of(alloc, reading.superclass)?,
            interfaces: reading.interfaces,
            fields: reading.fields,
            methods: reading.methods,
        }),
        _ => Err(SourceFault::Flawed {
            flaw: Flaw::Missing,
            line: last,
        }),
    }
}

/// Returns the syntax tree of a text, or its first faulty line.
#[tactic(auto, unfolding(jasmin::specs::Reading::source_of))]
pub(crate) fn read_tree(alloc: Global, text: &str) -> Result<Source, SourceFault>
    ensures exact { IsRead result (source_of text.now) }
{
    let (read, count) = with_lines(alloc, text)?;
    source_of_reading(alloc, last_line(count), read.into_reading())
}
