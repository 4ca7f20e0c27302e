//! The layout of a method's code (JVMS 4.7.3): its bytes, with pads set to 0, and the byte at which each instruction
//! starts.

ghost use Rattle.std.specs.Prelude.{◌≡◌, ◌+◌, ◌≤◌, IfOk, slice_set, suc, if◌then◌else◌};
ghost use Rattle.jvms_file.specs.Code.{is_switch, with_zeros, with_zero_pads, layout_of};
ghost use Rattle.jvms_file.specs.Instructions.{pad_length};

use crate::starts::Starts;
use crate::switches::pad_length;
use jvms_file::class_file::Layout;
use jvms_file::insn::Insn;
use shared_data::items::Items;
use std::alloc::{AllocError, Global};

/// Sets the byte at a place to 0. Outside the bytes nothing changes.
fn set_zero(bytes: &mut [u8], place: usize)
    ensures { bytes.new ≡ slice_set bytes.old place 0 }
{
    if place < bytes.len() {
        bytes[place] = 0;
    }
}

/// Sets `count` bytes from a place on to 0.
#[tactic(auto, unfolding(jvms_file::specs::Code::with_zeros))]
fn zero(bytes: &mut [u8], count: usize, place: usize)
    requires { place + count ≤ usize.MAX }
    ensures { bytes.new ≡ with_zeros count place bytes.old }
{
    let mut left = count;
    let mut at = place;
    while left > 0 {
        set_zero(bytes, at);
        at += 1;
        left -= 1;
    }
}

/// Decides whether an instruction has pads (JVMS 6.5 tableswitch, lookupswitch).
fn is_switch(insn: &Insn) -> bool
    ensures { result ≡ is_switch insn.now }
{
    matches!(insn, Insn::Table(_) | Insn::Lookup(_))
}

/// Sets the pads of the instruction that starts at byte `pc` to 0, if it has any.
fn zero_pads_of(bytes: &mut [u8], pc: u32, insn: &Insn)
    ensures { bytes.new
        ≡ (if is_switch insn.now then with_zeros (pad_length pc) (suc pc) bytes.old
        else bytes.old) }
{
    if is_switch(insn) {
        let start = pc as usize;
        zero(bytes, pad_length(start), start + 1);
    }
}

/// Sets the pads of all instructions to 0. `starts` are the bytes at which they start.
#[tactic(auto, unfolding(jvms_file::specs::Code::with_zero_pads))]
fn zero_pads(bytes: &mut [u8], starts: &[u32], insns: &[Insn])
    ensures { bytes.new ≡ with_zero_pads starts.now insns.now bytes.old }
{
    let mut pcs = starts;
    let mut rest = insns;
    while let [pc, later @ ..] = pcs {
        let [insn, others @ ..] = rest else {
            return;
        };
        zero_pads_of(bytes, *pc, insn);
        pcs = later;
        rest = others;
    }
}

/// Returns the layout of code: its bytes with pads set to 0, and the bytes at which its instructions start.
pub fn layout(
    alloc: Global,
    starts: Starts,
    insns: &[Insn],
    bytes: &[u8],
) -> Result<Layout, AllocError>
    ensures { IfOk result (λ l. l ≡ layout_of starts insns.now bytes.now) }
{
    let mut spelled = Vec::from_slice(alloc, bytes)?;
    zero_pads(&mut spelled, starts.as_slice(), insns);
    Ok(Layout {
        bytes: Items::from_vec(spelled),
        starts: starts.into_items(),
    })
}
