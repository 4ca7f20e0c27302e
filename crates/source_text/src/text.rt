//! Returns the text of a source.

ghost use Rattle.std.specs.Prelude.{◌≡◌, map, true, IfOk};
ghost use Rattle.std.specs.String.{string_bytes};
ghost use Rattle.std.specs.Str.Lines.{lines};
ghost use Rattle.jasmin.specs.Sources.{units_of};
ghost use Rattle.listing_spec.specs.Listable.{IsListable};
ghost use Rattle.listing_spec.specs.Printable.{is_paired, is_printable};
ghost use Rattle.listing_spec.specs.Printed.{lines_of_source};
ghost use Rattle.source_text.specs.Lines.{text_of_lines};

use crate::class::put_source;
use jasmin::source::Source;
use std::alloc::{AllocError, Global};

/// Returns the text with these UTF-16 code units.
fn string_of(alloc: Global, units: &[u16]) -> Result<String, AllocError>
    requires { is_paired units.now ≡ true }
    ensures { IfOk result (λ text. units_of (string_bytes text) ≡ units.now) }
{
    Ok(String::from_utf16(alloc, units)?.unwrap())
}

/// Returns the units of a source's lines, each ended by LF.
fn units_of_lines(alloc: Global, source: &Source) -> Result<Vec<u16>, AllocError>
    ensures { IfOk result (λ units. units.items ≡ text_of_lines (lines_of_source source.now)) }
{
    let mut units = Vec::new(alloc);
    put_source(alloc, &mut units, source)?;
    Ok(units)
}

/// Returns the text of a source, one statement on each line, each ended by LF. All names of the source can be spelled
/// as words, and its labels are those of places. A method without code has nothing that isn't written.
pub fn text_of(alloc: Global, source: &Source) -> Result<String, AllocError>
    requires listable { IsListable source.now }
    requires printable { is_printable source.now ≡ true }
    ensures exact { IfOk result
        (λ text. map units_of (lines (string_bytes text)) ≡ lines_of_source source.now) }
    // LF follows each line, the last one included, and nothing else separates them.
    ensures ended { IfOk result
        (λ text. units_of (string_bytes text) ≡ text_of_lines (lines_of_source source.now)) }
{
    let units = units_of_lines(alloc, source)?;
    string_of(alloc, units.as_slice())
}
