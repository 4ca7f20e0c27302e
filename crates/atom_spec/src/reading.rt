//! Reads all lines of a text.

ghost use Rattle.atom_spec.specs.Specs.{IsRead};

use crate::fault::SpecFault;
use crate::line::add;
use escapes::cut;
use shared_data::items::Items;
use std::alloc::Global;
use velodrome::specification::SpecificationLine;

const LINE_FEED: u8 = b'\n';

/// Reads the lines of a specification.
pub(crate) fn lines_of(alloc: Global, text: &[u8]) -> Result<Items<SpecificationLine>, SpecFault>
    ensures { IsRead text.now result }
{
    let mut lines = Items::new(alloc);
    let mut number = 1;
    let mut rest = text;
    while let Some((line, behind)) = cut(rest, LINE_FEED) {
        if !add(alloc, &mut lines, line)? {
            return Err(SpecFault::Syntax { line: number });
        }
        number += 1;
        rest = behind;
    }
    if !add(alloc, &mut lines, rest)? {
        return Err(SpecFault::Syntax { line: number });
    }
    Ok(lines)
}
