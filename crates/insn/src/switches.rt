//! The instructions with many targets (JVMS 6.5 tableswitch, lookupswitch).

ghost use Rattle.std.specs.Prelude.{◌≡◌, ◌+◌, ◌≤◌, ◌≤ℤ◌, ◌-ℤ◌, unsigned_abs, None, Some};
ghost use Rattle.jvms_file.specs.Instructions.{pad_length, targets_at, cases_at, is_above, table_switch_insn, lookup_switch_insn};
ghost use Rattle.jvms_file.specs.Reading.{Gives};
ghost use Rattle.insn.specs.Operands.{target_at, case_at};

use crate::targets::target_of;
use file_bytes::{Part, bytes_at, parts_of, u4_at, want};
use jvms_file::fault::{ClassFault, ReadError};
use jvms_file::insn::{Insn, LookupSwitch, SwitchCase, TableSwitch};
use shared_data::boxed::Boxed;
use shared_data::items::Items;
use std::alloc::Global;

/// Returns the number of pads of a switch whose opcode is at byte `pc`: the bytes up to the next multiple of 4.
pub fn pad_length(pc: usize) -> usize
    ensures exact { result ≡ pad_length pc }
    ensures few { result ≤ 3 }
{
    3 - pc % 4
}

/// The reader of targets of the switch at byte `pc`. `cut` is the fault of missing bytes.
#[derive(Clone, Copy)]
struct Targets {
    cut: ClassFault,
    pc: usize,
}

#[tactic(auto, unfolding(crate::specs::Operands::target_at))]
impl Part<u32> for Targets {
    ghost at = { λ t _. target_at t.cut t.pc };

    fn part_at<'a>(
        &self,
        _alloc: Global,
        _seen: &[u32],
        bytes: &'a [u8],
    ) -> Result<(u32, &'a [u8]), ReadError> {
        let (offset, rest) = u4_at(self.cut, bytes)?;
        Ok((target_of(self.pc, offset.cast_signed()), rest))
    }
}

/// Reads `count` targets, and returns them with the bytes after them. Capacity is reserved only as their bytes are
/// read.
fn targets_at(
    alloc: Global,
    cut: ClassFault,
    pc: usize,
    count: usize,
    bytes: &[u8],
) -> Result<(Items<u32>, &[u8]), ReadError>
    ensures { Gives (λ x. (x.0, x.1.now)) result (targets_at cut pc count bytes.now) }
{
    parts_of(alloc, &Targets { cut, pc }, count, bytes)
}

/// Returns the count of values from `low` to `high`.
fn count_of(low: i32, high: i32) -> usize
    requires { low ≤ℤ high }
    ensures { result ≡ unsigned_abs (high -ℤ low) + 1 }
{
    (i64::from(high) - i64::from(low)).unsigned_abs() as usize + 1
}

/// Reads the operands of tableswitch, and returns the instruction with the bytes after it (JVMS 6.5 tableswitch).
#[tactic(auto, unfolding(jvms_file::specs::Instructions::table_switch_insn))]
pub(crate) fn table_switch(
    alloc: Global,
    cut: ClassFault,
    pc: usize,
    bytes: &[u8],
) -> Result<(Insn, &[u8]), ReadError>
    ensures { Gives (λ x. (x.0, x.1.now)) result (table_switch_insn cut pc bytes.now) }
{
    let (_pads, behind_pads) = bytes_at(cut, pad_length(pc), bytes)?;
    let (offset, behind_default) = u4_at(cut, behind_pads)?;
    let (low_bits, behind_low) = u4_at(cut, behind_default)?;
    let (high_bits, behind_high) = u4_at(cut, behind_low)?;
    let low = low_bits.cast_signed();
    let high = high_bits.cast_signed();
    if low > high {
        return Err(ReadError::Fault(cut));
    }
    let (targets, rest) = targets_at(alloc, cut, pc, count_of(low, high), behind_high)?;
    let default = target_of(pc, offset.cast_signed());
    let switch = TableSwitch {
        default,
        low,
        targets,
    };
    Ok((Insn::Table(Boxed::new(alloc, switch)?), rest))
}

/// Decides whether a value is above the one before it, if there is one.
fn is_above(last: Option<i32>, value: i32) -> bool
    ensures { result ≡ is_above last value }
{
    match last {
        Some(before) => before < value,
        None => true,
    }
}

/// Reads one case, whose value has to be above the one before it, and returns it with the bytes after it.
#[tactic(auto, unfolding(crate::specs::Operands::case_at))]
fn case_at(
    cut: ClassFault,
    pc: usize,
    last: Option<i32>,
    bytes: &[u8],
) -> Result<(SwitchCase, &[u8]), ReadError>
    ensures { Gives (λ x. (x.0, x.1.now)) result (case_at cut pc last bytes.now) }
{
    let (value_bits, behind_value) = u4_at(cut, bytes)?;
    let (offset, rest) = u4_at(cut, behind_value)?;
    let value = value_bits.cast_signed();
    want(is_above(last, value), cut)?;
    let target = target_of(pc, offset.cast_signed());
    Ok((SwitchCase { value, target }, rest))
}

/// Returns the value that the next case has to be above.
fn value_of(case: SwitchCase) -> Option<i32>
    ensures { result ≡ Some case.value }
{
    Some(case.value)
}

/// Reads `count` cases in strictly rising order of their values, and returns them with the bytes after them. Capacity
/// is reserved only as their bytes are read.
fn cases_at(
    alloc: Global,
    cut: ClassFault,
    pc: usize,
    count: u32,
    bytes: &[u8],
) -> Result<(Items<SwitchCase>, &[u8]), ReadError>
    ensures { Gives (λ x. (x.0, x.1.now)) result (cases_at cut pc count None bytes.now) }
{
    let mut cases = Items::new(alloc);
    let mut rest = bytes;
    let mut last = None;
    for _ in 0..count {
        let (case, behind) = case_at(cut, pc, last, rest)?;
        cases.push(case)?;
        last = value_of(case);
        rest = behind;
    }
    Ok((cases, rest))
}

/// Reads the operands of lookupswitch, and returns the instruction with the bytes after it (JVMS 6.5 lookupswitch).
#[tactic(auto, unfolding(jvms_file::specs::Instructions::lookup_switch_insn))]
pub(crate) fn lookup_switch(
    alloc: Global,
    cut: ClassFault,
    pc: usize,
    bytes: &[u8],
) -> Result<(Insn, &[u8]), ReadError>
    ensures { Gives (λ x. (x.0, x.1.now)) result (lookup_switch_insn cut pc bytes.now) }
{
    let (_pads, behind_pads) = bytes_at(cut, pad_length(pc), bytes)?;
    let (offset, behind_default) = u4_at(cut, behind_pads)?;
    let (count, behind_count) = u4_at(cut, behind_default)?;
    want(count < 2_147_483_648, cut)?;
    let (cases, rest) = cases_at(alloc, cut, pc, count, behind_count)?;
    let default = target_of(pc, offset.cast_signed());
    let switch = LookupSwitch { default, cases };
    Ok((Insn::Lookup(Boxed::new(alloc, switch)?), rest))
}
