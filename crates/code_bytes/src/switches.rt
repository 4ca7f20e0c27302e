//! Writes the bytes of switches (JVMS 6.5 `tableswitch`, `lookupswitch`).

ghost use Rattle.std.specs.Prelude.{◌≡◌, ◌++◌, ◌∷◌, ◌≤◌, ◌-◌, ◌^◌, ◌+ℤ◌, ◌<ℤ◌, ◌≤ℤ◌, length, pos, neg_ℤ, OnOk};
ghost use Rattle.std.specs.List.{flat_map};
ghost use Rattle.assembly.specs.Sizes.{offset};
ghost use Rattle.assembly.specs.Bytes.{s4, pads, table_bytes, lookup_bytes};
ghost use Rattle.code_bytes.specs.Writing.{pair_bytes};

use crate::numbers::{word_of, write_s4, write_u1};
use crate::targets::offset_of;
use file_bytes::{write_length, write_u4};
use insn::pad_length;
use jasmin::source::{LookupLines, MatchLine, TableLines};
use shared_data::shared::Text;
use source_labels::Labels;
use std::alloc::AllocError;

/// The opcode of tableswitch.
const TABLE: u8 = 170;

/// The opcode of lookupswitch.
const LOOKUP: u8 = 171;

/// Appends zeros up to the next multiple of 4, from the byte after an opcode at byte `pc`.
fn write_pads(out: &mut Vec<u8>, pc: u16) -> Result<(), AllocError>
    ensures { OnOk result (out.new.items ≡ out.old.items ++ pads pc) }
{
    for _ in 0..pad_length(usize::from(pc)) {
        write_u1(out, 0)?;
    }
    Ok(())
}

/// Appends the opcode of a switch at byte `pc`, and its padding.
fn write_head(out: &mut Vec<u8>, code: u8, pc: u16) -> Result<(), AllocError>
    ensures { OnOk result (out.new.items ≡ out.old.items ++ code ∷ pads pc) }
{
    write_u1(out, code)?;
    write_pads(out, pc)
}

/// Appends the offset of a label.
fn write_offset(
    out: &mut Vec<u8>,
    labels: &Labels<'_>,
    starts: &[u16],
    pc: u16,
    label: &Text,
) -> Result<(), AllocError>
    ensures { OnOk result
        (out.new.items ≡ out.old.items ++ s4 (offset starts.now labels.now pc label.now)) }
{
    write_s4(out, offset_of(labels, starts, pc, label))
}

/// Appends the offsets of labels.
fn write_offsets(
    out: &mut Vec<u8>,
    labels: &Labels<'_>,
    starts: &[u16],
    pc: u16,
    names: &[Text],
) -> Result<(), AllocError>
    ensures { OnOk result (out.new.items ≡ out.old.items
        ++ flat_map (λ label. s4 (offset starts.now labels.now pc label)) names.now) }
{
    for name in names {
        write_offset(out, labels, starts, pc, name)?;
    }
    Ok(())
}

/// Returns the greatest value of a tableswitch.
fn greatest(low: i32, count: usize) -> i64
    requires { count ≤ 65535 }
    ensures exact { result ≡ low +ℤ pos (count - 1) }
    ensures least { neg_ℤ (pos (2 ^ 31)) ≤ℤ result }
    ensures most { result <ℤ pos (2 ^ 32) }
{
    i64::from(low) + count.saturating_sub(1) as i64
}

/// Appends the least and the greatest value of a tableswitch with `count` labels.
fn write_bounds(out: &mut Vec<u8>, low: i32, count: usize) -> Result<(), AllocError>
    requires { count ≤ 65535 }
    ensures { OnOk result
        (out.new.items ≡ out.old.items ++ (s4 low ++ s4 (low +ℤ pos (count - 1)))) }
{
    write_s4(out, low)?;
    write_u4(out, word_of(greatest(low, count)))
}

/// Appends the least and the greatest value of a tableswitch.
fn write_bounds_of(out: &mut Vec<u8>, lines: &TableLines) -> Result<(), AllocError>
    requires { length lines.now.labels ≤ 65535 }
    ensures { OnOk result (out.new.items ≡ out.old.items
        ++ (s4 lines.now.low ++ s4 (lines.now.low +ℤ pos (length lines.now.labels - 1)))) }
{
    write_bounds(out, lines.low, lines.labels.len())
}

/// Appends a tableswitch.
#[tactic(auto, unfolding(assembly::specs::Bytes::table_bytes))]
pub(crate) fn write_table(
    out: &mut Vec<u8>,
    labels: &Labels<'_>,
    starts: &[u16],
    pc: u16,
    lines: &TableLines,
) -> Result<(), AllocError>
    requires { length lines.now.labels ≤ 65535 }
    ensures { OnOk result
        (out.new.items ≡ out.old.items ++ table_bytes starts.now labels.now pc lines.now) }
{
    write_head(out, TABLE, pc)?;
    write_offset(out, labels, starts, pc, &lines.default)?;
    write_bounds_of(out, lines)?;
    write_offsets(out, labels, starts, pc, lines.labels.as_slice())
}

/// Appends the value and the offset of a pair.
#[tactic(auto, unfolding(crate::specs::Writing::pair_bytes))]
fn write_pair(
    out: &mut Vec<u8>,
    labels: &Labels<'_>,
    starts: &[u16],
    pc: u16,
    pair: &MatchLine,
) -> Result<(), AllocError>
    ensures { OnOk result
        (out.new.items ≡ out.old.items ++ pair_bytes starts.now labels.now pc pair.now) }
{
    write_s4(out, pair.value)?;
    write_offset(out, labels, starts, pc, &pair.label)
}

/// Appends the values and offsets of pairs.
fn write_pairs(
    out: &mut Vec<u8>,
    labels: &Labels<'_>,
    starts: &[u16],
    pc: u16,
    pairs: &[MatchLine],
) -> Result<(), AllocError>
    ensures { OnOk result (out.new.items
        ≡ out.old.items ++ flat_map (pair_bytes starts.now labels.now pc) pairs.now) }
{
    for pair in pairs {
        write_pair(out, labels, starts, pc, pair)?;
    }
    Ok(())
}

/// Appends a lookupswitch.
#[tactic(auto, unfolding(assembly::specs::Bytes::lookup_bytes, crate::specs::Writing::pair_bytes))]
pub(crate) fn write_lookup(
    out: &mut Vec<u8>,
    labels: &Labels<'_>,
    starts: &[u16],
    pc: u16,
    lines: &LookupLines,
) -> Result<(), AllocError>
    ensures { OnOk result
        (out.new.items ≡ out.old.items ++ lookup_bytes starts.now labels.now pc lines.now) }
{
    write_head(out, LOOKUP, pc)?;
    write_offset(out, labels, starts, pc, &lines.default)?;
    write_length(out, lines.matches.len())?;
    write_pairs(out, labels, starts, pc, lines.matches.as_slice())
}
