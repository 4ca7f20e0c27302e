//! Writes and parses names.

ghost use Rattle.std.specs.Prelude.{◌≡◌, ◌++◌, OnOk, OnErr, IfOk};
ghost use Rattle.std.specs.Option.{option_map};
ghost use Rattle.std.specs.String.{string_bytes};
ghost use Rattle.jvms_file.specs.Texts.{IsText};
ghost use Rattle.escapes.specs.Escapes.{name_text};
ghost use Rattle.escapes.specs.Keys.{IsNameOf};
ghost use Rattle.escapes.specs.Readings.{IsReadAs};

use crate::sort::NameSort;
use crate::unit::{put_unit, unit_at};
use shared_data::items::Items;
use shared_data::shared::{Shared, Text};
use std::alloc::{AllocError, Global};

/// Appends a name. A UTF-16 code unit from 33 to 126 except the backslash is written as itself. Each other one is `\u`
/// with four hexadecimal digits in lower case.
pub fn put_name(out: &mut String, name: &[u16]) -> Result<(), AllocError>
    ensures exact { OnOk result
        (string_bytes out.new ≡ string_bytes out.old ++ name_text name.now) }
    // Without memory nothing changes.
    ensures kept { OnErr result (string_bytes out.new ≡ string_bytes out.old) }
{
    let before = out.len();
    for unit in name {
        if let Err(error) = put_unit(out, *unit) {
            out.truncate(before);
            return Err(error);
        }
    }
    Ok(())
}

/// Parses a text as code units. Returns `None` if it isn't how units are written.
fn units_of(alloc: Global, text: &[u8]) -> Result<Option<Vec<u16>>, AllocError>
    ensures { IfOk result
        (λ units. IsReadAs IsText name_text text.now (option_map (λ v. v.items) units)) }
{
    let mut units = Vec::with_capacity(alloc, text.len())?;
    let mut rest = text;
    while !rest.is_empty() {
        let Some((unit, behind)) = unit_at(rest) else {
            return Ok(None);
        };
        units.push(unit)?;
        rest = behind;
    }
    Ok(Some(units))
}

/// Parses the units of a name. Returns `None` if the text is no name of this sort. A name has one spelling.
pub fn name_units(
    alloc: Global,
    sort: NameSort,
    text: &[u8],
) -> Result<Option<Items<u16>>, AllocError>
    ensures { IfOk result (IsReadAs (IsNameOf sort) name_text text.now) }
{
    let Some(units) = units_of(alloc, text)? else {
        return Ok(None);
    };
    if !sort.is_of(units.as_slice()) {
        return Ok(None);
    }
    Ok(Some(Items::from_vec(units)))
}

/// Parses a name. Returns `None` if the text is no name of this sort.
pub fn name_of(alloc: Global, sort: NameSort, text: &[u8]) -> Result<Option<Text>, AllocError>
    ensures { IfOk result (IsReadAs (IsNameOf sort) name_text text.now) }
{
    let Some(units) = name_units(alloc, sort, text)? else {
        return Ok(None);
    };
    let name = Shared::new(alloc, units)?;
    Ok(Some(name))
}
