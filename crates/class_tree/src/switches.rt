//! Converts switches, with labels instead of places (JVMS 6.5 `tableswitch`, `lookupswitch`).

ghost use Rattle.std.specs.Prelude.{◌≡◌, map, IfOk};
ghost use Rattle.listing_spec.specs.TreeOf.{label_of, match_of};

use crate::labels::{label_of, labels_of};
use jasmin::source::{LookupLines, MatchLine, TableLines};
use jvms_file::insn::{LookupSwitch, SwitchCase, TableSwitch};
use shared_data::items::Items;
use std::alloc::{AllocError, Global};

/// Returns the lines of a tableswitch.
pub(crate) fn table_lines(alloc: Global, switch: &TableSwitch) -> Result<TableLines, AllocError>
    ensures { IfOk result (λ lines. lines ≡ record {
      low = switch.now.low;
      labels = map label_of switch.now.targets;
      default = label_of switch.now.default;
    }) }
{
    Ok(TableLines {
        low: switch.low,
        labels: labels_of(alloc, switch.targets.as_slice())?,
        default: label_of(alloc, switch.default as usize)?,
    })
}

/// Returns the line of a case.
fn match_of(alloc: Global, case: SwitchCase) -> Result<MatchLine, AllocError>
    ensures { IfOk result (λ line. line ≡ match_of case) }
{
    Ok(MatchLine {
        value: case.value,
        label: label_of(alloc, case.target as usize)?,
    })
}

/// Returns the lines of cases, in order.
fn matches_of(alloc: Global, cases: &[SwitchCase]) -> Result<Items<MatchLine>, AllocError>
    ensures { IfOk result (λ lines. lines ≡ map match_of cases.now) }
{
    let mut lines = Vec::with_capacity(alloc, cases.len())?;
    for case in cases {
        lines.push(match_of(alloc, *case)?)?;
    }
    Ok(Items::from_vec(lines))
}

/// Returns the lines of a lookupswitch.
pub(crate) fn lookup_lines(alloc: Global, switch: &LookupSwitch) -> Result<LookupLines, AllocError>
    ensures { IfOk result (λ lines. lines ≡ record {
      matches = map match_of switch.now.cases;
      default = label_of switch.now.default;
    }) }
{
    Ok(LookupLines {
        matches: matches_of(alloc, switch.cases.as_slice())?,
        default: label_of(alloc, switch.default as usize)?,
    })
}
