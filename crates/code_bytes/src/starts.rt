//! Computes the bytes at which instructions start, in code of 1 to 65535 bytes (JVMS 4.7.3).

ghost use Rattle.std.specs.Prelude.{◌≡◌, ◌+◌, ◌≤◌, [], length, IfSome, IfOk, OnOk};
ghost use Rattle.jasmin.specs.Denote.{operations};
ghost use Rattle.assembly.specs.Sizes.{size};
ghost use Rattle.assembly.specs.Faults.{Answers};
ghost use Rattle.code_bytes.specs.Starting.{end_within, some_starts, starts_onto, starts_within};
ghost use Rattle.code_bytes.specs.Few.{AreFew};

use crate::sizes::capped_size;
use crate::steps::next_operation;
use assembly::fault::AsmFault;
use jasmin::source::{CodeItem, Operation};
use shared_data::items::Items;
use std::alloc::{AllocError, Global};

/// The most bytes of code.
const MOST_BYTES: usize = 65535;

/// Returns the byte after an instruction that starts at byte `pc`, if code may be this long.
fn end_of(number: u16, pc: usize, operation: &Operation) -> Option<usize>
    requires { pc ≤ 65535 }
    ensures exact { result ≡ end_within (pc + size number pc operation.now) }
    ensures few { IfSome result (λ end. end ≤ 65535) }
{
    let end = pc + capped_size(number, pc, operation);
    if end <= MOST_BYTES { Some(end) } else { None }
}

/// Returns the starts of all instructions, or `CodeLength` if there are no bytes.
fn finished(starts: Items<u16>, pc: usize) -> Result<Items<u16>, AsmFault>
    ensures { result ≡ some_starts starts pc }
{
    if pc > 0 {
        Ok(starts)
    } else {
        Err(AsmFault::CodeLength)
    }
}

/// Returns the starts of instructions in order, or `CodeLength` if there are no bytes or too many.
fn collected_starts(
    alloc: Global,
    operands: &[u16],
    items: &[CodeItem],
) -> Result<Items<u16>, AsmFault>
    ensures { Answers result (starts_onto [] 0 operands.now (operations items.now)) }
{
    let mut starts = Items::with_capacity(alloc, operands.len())?;
    let mut pc = 0;
    let mut numbers = operands;
    let mut rest = items;
    while let Some((number, others)) = numbers.split_first() {
        let Some((operation, behind)) = next_operation(rest) else {
            return finished(starts, pc);
        };
        let Some(end) = end_of(*number, pc, operation) else {
            return Err(AsmFault::CodeLength);
        };
        starts.push(pc as u16)?;
        pc = end;
        numbers = others;
        rest = behind;
    }
    finished(starts, pc)
}

/// Returns the bytes at which the instructions start that name these pool entries. Each start fits two bytes.
///
/// # Errors
///
/// Returns `CodeLength` if the code is empty or has more than 65535 bytes, or `Memory` if memory ran out.
pub(crate) fn starts_of(
    alloc: Global,
    operands: &[u16],
    items: &[CodeItem],
) -> Result<Items<u16>, AsmFault>
    requires { length operands.now ≡ length (operations items.now) }
    ensures exact { Answers result (starts_within operands.now items.now) }
    ensures few { OnOk result (AreFew (operations items.now)) }
    ensures counted { OnOk result (length (operations items.now) ≤ 65535) }
    ensures many { IfOk result (λ starts. length starts ≡ length (operations items.now)) }
{
    collected_starts(alloc, operands, items)
}

/// Returns the same numbers as `u32`.
pub(crate) fn widened(alloc: Global, starts: &[u16]) -> Result<Items<u32>, AllocError>
    ensures { IfOk result (λ w. w ≡ starts.now) }
{
    let mut wide = Items::with_capacity(alloc, starts.len())?;
    for start in starts {
        wide.push(u32::from(*start))?;
    }
    Ok(wide)
}
