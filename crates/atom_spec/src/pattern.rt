//! Reads the patterns of lines.

ghost use Rattle.std.specs.Prelude.{◌≡◌, ℕ, List, ◌==◌, IfOk, codes};
ghost use Rattle.jvms_file.specs.Names.{same_text};
ghost use Rattle.escapes.specs.Readings.{IsReadAs};
ghost use Rattle.atom_spec.specs.Lines.{IsPattern, pattern_text};
ghost use Rattle.atom_spec.specs.Parts.{IsPatternWith};

use escapes::{NameSort, cut, dots_in, method_of, name_of};
use jvms_program::key::MethodKey;
use std::alloc::{AllocError, Global};
use velodrome::specification::Pattern;

const DOT: u8 = b'.';

/// Decides whether a text is `*`.
fn is_star(text: &[u8]) -> bool
    ensures { result ≡ same_text text.now (codes "*") }
{
    text == b"*".as_slice()
}

/// Reads the pattern `*` from a text without dots.
fn all_of(text: &[u8]) -> Option<Pattern>
    ensures { IsReadAs (IsPatternWith 0) pattern_text text.now result }
{
    if is_star(text) {
        Some(Pattern::All)
    } else {
        None
    }
}

/// Reads a pattern `C.*` or `C.m` from a text with one dot.
fn class_or_name_of(alloc: Global, text: &[u8]) -> Result<Option<Pattern>, AllocError>
    ensures { IfOk result (IsReadAs (IsPatternWith 1) pattern_text text.now) }
{
    let Some((class, name)) = cut(text, DOT) else {
        return Ok(None);
    };
    let Some(class) = name_of(alloc, NameSort::Class, class)? else {
        return Ok(None);
    };
    if is_star(name) {
        return Ok(Some(Pattern::Class { class }));
    }
    match name_of(alloc, NameSort::Method, name)? {
        Some(name) => Ok(Some(Pattern::Named { class, name })),
        None => Ok(None),
    }
}

/// Reads a pattern `C.m.D` from a text with two dots.
fn exactly_of(alloc: Global, text: &[u8]) -> Result<Option<Pattern>, AllocError>
    ensures { IfOk result (IsReadAs (IsPatternWith 2) pattern_text text.now) }
{
    match method_of(alloc, text)? {
        Some(
            MethodKey {
                class,
                name,
                descriptor,
            },
        ) => Ok(Some(Pattern::Exactly {
            class,
            name,
            descriptor,
        })),
        None => Ok(None),
    }
}

/// Reads a pattern. Returns `None` if the text is none.
pub(crate) fn pattern_of(alloc: Global, text: &[u8]) -> Result<Option<Pattern>, AllocError>
    ensures { IfOk result (IsReadAs IsPattern pattern_text text.now) }
{
    match dots_in(text) {
        0 => Ok(all_of(text)),
        1 => class_or_name_of(alloc, text),
        2 => exactly_of(alloc, text),
        _ => Ok(None),
    }
}
