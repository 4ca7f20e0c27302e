//! Computes the sizes of instructions in bytes (JVMS 6.5).

ghost use Rattle.std.specs.Prelude.{◌≡◌, ◌+◌, ◌*◌, ◌≤◌, min, length, nat_le, if◌then◌else◌};
ghost use Rattle.jvms_file.specs.Instructions.{pad_length};
ghost use Rattle.assembly.specs.Sizes.{is_byte_step, invoke_size, size};

use insn::pad_length;
use jasmin::source::{BranchWidth, ConstantWidth, LookupLines, Operation, TableLines};
use jvms_file::insn::Invoke;

/// One more than the most bytes of code (JVMS 4.7.3).
const TOO_MANY: usize = 65536;

/// Decides whether an `iinc` has one byte for the local variable and one for the increment.
pub(crate) fn is_byte_step(local: u16, by: i16) -> bool
    ensures { result ≡ is_byte_step local by }
{
    local <= 255 && -128 <= by && by <= 127
}

/// Returns the count, or `TOO_MANY` if it is greater.
fn capped(count: usize) -> usize
    ensures { result ≡ min count 65536 }
{
    if count < TOO_MANY { count } else { TOO_MANY }
}

/// Returns the size of an `ldc` or `ldc_w`. An index up to 255 has one byte.
fn constant_size(number: u16) -> usize
    ensures exact { result ≡ (if nat_le number 255 then 2 else 3) }
    ensures few { result ≤ 3 }
{
    if number <= 255 { 2 } else { 3 }
}

/// Returns the size of a load, a store or `ret`. A local variable's number above 255 has two bytes, after `wide`.
fn local_size(local: u16) -> usize
    ensures exact { result ≡ (if nat_le local 255 then 2 else 4) }
    ensures few { result ≤ 4 }
{
    if local <= 255 { 2 } else { 4 }
}

/// Returns the size of an `iinc`, which may need `wide`.
fn increment_size(local: u16, by: i16) -> usize
    ensures exact { result ≡ (if is_byte_step local by then 3 else 6) }
    ensures few { result ≤ 6 }
{
    if is_byte_step(local, by) { 3 } else { 6 }
}

/// Returns the size of an invoke instruction. An `invokeinterface` has two bytes more than any other.
fn invoke_size(how: Invoke) -> usize
    ensures exact { result ≡ invoke_size how }
    ensures few { result ≤ 5 }
{
    match how {
        Invoke::Interface => 5,
        Invoke::Virtual | Invoke::Special | Invoke::Static => 3,
    }
}

/// Returns the size of a tableswitch, or 65536 if it is greater. The default, low, high and the offsets follow its
/// padding.
fn table_size(pc: usize, lines: &TableLines) -> usize
    ensures { result ≡ min (1 + pad_length pc + 12 + 4 * length lines.now.labels) 65536 }
{
    capped(1 + pad_length(pc) + 12 + 4 * capped(lines.labels.len()))
}

/// Returns the size of a lookupswitch, or 65536 if it is greater. The default, the count and the pairs follow its
/// padding.
fn lookup_size(pc: usize, lines: &LookupLines) -> usize
    ensures { result ≡ min (1 + pad_length pc + 8 + 8 * length lines.now.matches) 65536 }
{
    capped(1 + pad_length(pc) + 8 + 8 * capped(lines.matches.len()))
}

/// Returns the size of an instruction that names the pool entry `number` and starts at byte `pc`, or 65536 if it is
/// greater.
#[tactic(auto, unfolding(assembly::specs::Sizes::size))]
pub(crate) fn capped_size(number: u16, pc: usize, operation: &Operation) -> usize
    ensures { result ≡ min (size number pc operation.now) 65536 }
{
    match operation {
        Operation::Alone(_) => 1,
        Operation::PushByte(_) => 2,
        Operation::PushShort(_) => 3,
        Operation::Constant(ConstantWidth::AsNeeded, _) => constant_size(number),
        Operation::Constant(ConstantWidth::Wide, _) => 3,
        Operation::ConstantLong(_) => 3,
        Operation::Local(_, local) => local_size(*local),
        Operation::Increment(local, by) => increment_size(*local, *by),
        Operation::Branch(BranchWidth::Short, _, _) => 3,
        Operation::Branch(BranchWidth::Wide, _, _) => 5,
        Operation::Table(lines) => table_size(pc, lines.get()),
        Operation::Lookup(lines) => lookup_size(pc, lines.get()),
        Operation::Field(_, _) => 3,
        Operation::Invoke(how, _) => invoke_size(*how),
        Operation::Class(_, _) => 3,
        Operation::NewArray(_) => 2,
        Operation::MultiNewArray(_, _) => 4,
    }
}
