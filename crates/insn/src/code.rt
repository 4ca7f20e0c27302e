//! The instructions of a method (JVMS 4.7.3). A first pass reads each with its byte, and a second one turns each target
//! into a place.

ghost use Rattle.std.specs.Prelude.{◌≡◌, ◌≤◌, ◌<◌, length, map, IfOk, Err};
ghost use Rattle.jvms_file.specs.declared.fault.ClassFault.TheVariants.{CodeLength};
ghost use Rattle.jvms_file.specs.declared.fault.ReadError.TheVariants.{Fault};
ghost use Rattle.jvms_file.specs.Code.{insns_at_bytes, starts, insns_with_places, insns_of};
ghost use Rattle.jvms_file.specs.Reading.{Gives};
ghost use Rattle.insn.specs.Places.{IsStarts};
ghost use Rattle.insn.specs.Locating.{placed_of, all_placed, resolved_one};

use crate::located::InsnAt;
use crate::operands::insn_at;
use crate::places::with_places;
use crate::starts::Starts;
use const_pool::ScannedPool;
use jvms_file::fault::{ClassFault, ReadError};
use jvms_file::insn::Insn;
use shared_data::items::Items;
use std::alloc::{AllocError, Global};

/// The code of a method.
#[derive(Drop)]
pub struct Decoded {
    /// The byte at which each instruction starts.
    pub starts: Starts,
    /// The instructions, whose targets are places in this list.
    pub insns: Items<Insn>,
}

/// Reads the instructions of bytes, each with its byte.
fn insns_at_bytes(
    alloc: Global,
    pool: &ScannedPool,
    major: u16,
    bytes: &[u8],
) -> Result<Vec<InsnAt>, ReadError>
    requires { length bytes.now ≤ 65535 }
    ensures { Gives (λ v. all_placed v.items) result (insns_at_bytes pool.now major bytes.now) }
{
    let mut found = Vec::new(alloc);
    let mut rest = bytes;
    while !rest.is_empty() {
        let pc = bytes.len() - rest.len();
        let (insn, behind) = insn_at(alloc, pool, major, pc, rest)?;
        let one = InsnAt {
            pc: pc as u32,
            insn,
        };
        found.push(one)?;
        rest = behind;
    }
    Ok(found)
}

/// Returns the bytes of instructions.
fn bytes_of_insns(alloc: Global, located: &[InsnAt]) -> Result<Vec<u32>, AllocError>
    ensures { IfOk result (λ v. v.items ≡ map (λ l. l.pc) located.now) }
{
    let mut pcs = Vec::with_capacity(alloc, located.len())?;
    for one in located {
        pcs.push(one.pc)?;
    }
    Ok(pcs)
}

/// Returns the bytes at which instructions start.
fn starts_of(alloc: Global, located: &[InsnAt]) -> Result<Starts, AllocError>
    requires { IsStarts (starts (all_placed located.now)) }
    ensures { IfOk result (λ s. s ≡ starts (all_placed located.now)) }
{
    let pcs = bytes_of_insns(alloc, located)?;
    Ok(Starts::of(pcs))
}

/// Returns one instruction with places for targets.
fn resolved_insn(alloc: Global, starts: &Starts, one: &InsnAt) -> Result<Insn, ReadError>
    ensures { Gives (λ x. x) result (resolved_one starts.now (placed_of one.now)) }
{
    let fault = ClassFault::Target {
        pc: one.pc as usize,
    };
    with_places(alloc, starts, fault, &one.insn)
}

/// Returns the instructions with places for targets. The list is kept, so it gets no more capacity than it needs.
fn insns_with_places(
    alloc: Global,
    starts: &Starts,
    located: &[InsnAt],
) -> Result<Items<Insn>, ReadError>
    ensures { Gives (λ x. x) result (insns_with_places starts.now (all_placed located.now)) }
{
    let mut insns = Items::with_capacity(alloc, located.len())?;
    for one in located {
        let insn = resolved_insn(alloc, starts, one)?;
        insns.push(insn)?;
    }
    Ok(insns)
}

/// The greatest number of bytes of code (JVMS 4.7.3).
const MOST_CODE: usize = 65535;

/// Reads the instructions that the bytes of a method spell. All opcodes and operands are tested before any target. More
/// than 65,535 bytes are refused with C15.
#[tactic(auto, unfolding(jvms_file::specs::Code::insns_of))]
pub fn decode(
    alloc: Global,
    pool: &ScannedPool,
    major: u16,
    bytes: &[u8],
) -> Result<Decoded, ReadError>
    ensures exact { length bytes.now ≤ 65535
        → Gives (λ d. (d.starts, d.insns)) result (insns_of pool.now major bytes.now) }
    ensures long { 65535 < length bytes.now → result ≡ Err (Fault CodeLength) }
{
    if bytes.len() > MOST_CODE {
        return Err(ReadError::Fault(ClassFault::CodeLength));
    }
    let located = insns_at_bytes(alloc, pool, major, bytes)?;
    let starts = starts_of(alloc, &located)?;
    let insns = insns_with_places(alloc, &starts, &located)?;
    Ok(Decoded { starts, insns })
}
