//! Reads the lines of a specification.

ghost use Rattle.std.specs.Prelude.{◌≡◌, IfOk};
ghost use Rattle.escapes.specs.Readings.{IsReadAs};
ghost use Rattle.atom_spec.specs.Lines.{IsLine, line_text, word_text, is_skipped};
ghost use Rattle.atom_spec.specs.Parts.{IsWord, Adds};

use crate::pattern::pattern_of;
use escapes::cut;
use shared_data::items::Items;
use std::alloc::{AllocError, Global};
use velodrome::specification::SpecificationLine;

const SPACE: u8 = b' ';

/// Decides whether a line's word is `atomic` or `plain`. Returns `None` if it is neither.
fn word_of(text: &[u8]) -> Option<bool>
    ensures { IsReadAs IsWord word_text text.now result }
{
    match text {
        b"atomic" => Some(true),
        b"plain" => Some(false),
        _ => None,
    }
}

/// Reads a line of a specification. Returns `None` if the text is none.
fn line_of(alloc: Global, text: &[u8]) -> Result<Option<SpecificationLine>, AllocError>
    ensures { IfOk result (IsReadAs IsLine line_text text.now) }
{
    let Some((word, pattern)) = cut(text, SPACE) else {
        return Ok(None);
    };
    let Some(is_atomic) = word_of(word) else {
        return Ok(None);
    };
    match pattern_of(alloc, pattern)? {
        Some(pattern) => Ok(Some(SpecificationLine { is_atomic, pattern })),
        None => Ok(None),
    }
}

/// Decides whether a line is skipped.
fn is_skipped(line: &[u8]) -> bool
    ensures { result ≡ is_skipped line.now }
{
    matches!(line, [] | [b'#', ..])
}

/// Appends a line to the others, unless it is skipped. Returns `false` if it is neither skipped nor a line of a
/// specification.
pub(crate) fn add(
    alloc: Global,
    lines: &mut Items<SpecificationLine>,
    line: &[u8],
) -> Result<bool, AllocError>
    ensures { IfOk result (λ is. Adds line.now is lines.old lines.new) }
{
    if is_skipped(line) {
        return Ok(true);
    }
    match line_of(alloc, line)? {
        Some(line) => {
            lines.push(line)?;
            Ok(true)
        }
        None => Ok(false),
    }
}
