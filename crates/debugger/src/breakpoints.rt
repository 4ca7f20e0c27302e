//! The breakpoints of a session, looked up by number.

ghost use Rattle.std.specs.Prelude.{◌≡◌, ℕ, ◌+◌, ◌^◌, ◌<◌, ◌==◌, ◌&&◌, ◌++◌, ◌∷◌, [], length};
ghost use Rattle.std.specs.Prelude.{not, None, Some, true, false, IfOk, OnErr, MatchOption};
ghost use Rattle.std.specs.List.{remove};
ghost use Rattle.debugger.specs.Breakpoints.{AreSlots, IsSlotOf, Rises, breakpoints_of, numbers};
ghost use Rattle.debugger.specs.Sessions.{IsBody, debugger_of, with_breakpoints};
ghost use Rattle.debugger_commands.specs.Sessions.{breakpoint_index};

use crate::body::Body;
use debugger_commands::Breakpoint;
use jvms_program::number::MethodNumber;
use std::alloc::{AllocError, Global};
use std::marker::Model;

/// The number of slots up to which no slot is of a deleted breakpoint.
const FEW_SLOTS: usize = 32;

/// A breakpoint that was added, and a mark for its deletion.
#[derive(Clone, Copy)]
pub(crate) struct Slot {
    pub(crate) breakpoint: Breakpoint,
    pub(crate) is_deleted: bool,
}

/// The breakpoints of a session, in the order of their numbers, and the number of the next one.
#[derive(Drop)]
pub(crate) struct Breakpoints {
    /// A deleted breakpoint keeps its slot until more than half of the slots are of deleted ones. With at most 32 slots
    /// its slot is dropped immediately.
    slots: Vec<Slot>,
    /// The number of slots of deleted breakpoints.
    deleted: usize,
    next: u64,
}

impl Model for Breakpoints {
    ghost use Rattle.debugger.specs.Breakpoints.{AreSlots, Numbered, breakpoints_of};

    ghost Value = { Numbered };

    ghost view = { λ b. record { items = breakpoints_of b.slots.items; next = b.next } };

    ghost invariant = { λ b. AreSlots b.slots.items b.deleted b.next };
}

/// Returns whether a slot has breakpoint k.
fn is_slot_of(slot: &Slot, k: u32) -> bool
    ensures { result ≡ (slot.now.breakpoint.number == k) && not slot.now.is_deleted }
{
    slot.breakpoint.number == k && !slot.is_deleted
}

/// Returns the slot of breakpoint k, if there is one.
fn find(slots: &[Slot], k: u32) -> Option<usize>
    requires { (next : ℕ) × Rises 0 next (numbers slots.now) }
    ensures { MatchOption result (breakpoint_index k (breakpoints_of slots.now) ≡ None)
        (λ i. IsSlotOf k slots.now i) }
{
    let i = slots.partition_point(|s| s.breakpoint.number < k);
    if i == slots.len() {
        return None;
    }
    if is_slot_of(&slots[i], k) {
        Some(i)
    } else {
        None
    }
}

/// Deletes breakpoint k, which is at slot i, and returns the number of slots of deleted breakpoints. Drops those slots
/// if they are more than half, or if there are few slots.
fn delete_at(slots: &mut Vec<Slot>, deleted: usize, next: u64, k: u32, i: usize) -> usize
    requires slots { AreSlots slots.old.items deleted next }
    requires slot { IsSlotOf k slots.old.items i }
    ensures slots { AreSlots slots.new.items result next }
    ensures removed { (p : ℕ) × (breakpoint_index k (breakpoints_of slots.old.items) ≡ Some p)
        × (breakpoints_of slots.new.items ≡ remove (breakpoints_of slots.old.items) p) }
{
    slots[i].is_deleted = true;
    let deleted = deleted + 1;
    if slots.len() > FEW_SLOTS && 2 * deleted <= slots.len() {
        return deleted;
    }
    slots.retain(|s| !s.is_deleted);
    0
}

impl Breakpoints {
    /// Returns a list without breakpoints. The first one gets number 1.
    pub(crate) fn new(alloc: Global) -> Breakpoints
        ensures { result ≡ record { items = []; next = 1 } }
    {
        Breakpoints {
            slots: Vec::new(alloc),
            deleted: 0,
            next: 1,
        }
    }

    /// Returns the number of the next breakpoint.
    pub(crate) fn next(&self) -> u64
        ensures { result ≡ self.now.next }
    {
        self.next
    }

    /// Returns whether there are no breakpoints.
    pub(crate) fn is_empty(&self) -> bool
        ensures { result ≡ (length self.now.items == 0) }
    {
        self.slots.is_empty()
    }

    /// Returns the slots. Each breakpoint has one.
    pub(crate) fn slots(&self) -> &[Slot]
        ensures { breakpoints_of result.now ≡ self.now.items }
    {
        self.slots.as_slice()
    }

    /// Adds a breakpoint with the next number. Without memory nothing changes.
    pub(crate) fn add(
        &mut self,
        method: MethodNumber,
        instruction: u32,
    ) -> Result<Breakpoint, AllocError>
        requires number { self.old.next < 2 ^ 32 }
        ensures breakpoint { IfOk result (λ b. b
            ≡ record { number = self.old.next; method = method; instruction = instruction }) }
        ensures added { IfOk result (λ b. self.new
            ≡ record { items = self.old.items ++ b ∷ []; next = self.old.next + 1 }) }
        ensures kept { OnErr result (self.new ≡ self.old) }
    {
        let breakpoint = Breakpoint {
            number: self.next as u32,
            method,
            instruction,
        };
        self.slots.push(Slot {
            breakpoint,
            is_deleted: false,
        })?;
        self.next += 1;
        Ok(breakpoint)
    }

    /// Deletes breakpoint k, and returns whether it existed.
    pub(crate) fn delete(&mut self, k: u32) -> bool
        ensures none { result ≡ false → breakpoint_index k self.old.items ≡ None }
        ensures kept { result ≡ false → self.new ≡ self.old }
        ensures removed { result ≡ true → (i : ℕ)
            × (breakpoint_index k self.old.items ≡ Some i)
            × (self.new ≡ record self.old { items = remove self.old.items i }) }
    {
        let Some(i) = find(&self.slots, k) else {
            return false;
        };
        self.deleted = delete_at(&mut self.slots, self.deleted, self.next, k, i);
        true
    }
}

impl Body<'_> {
    /// Adds a breakpoint with the next number. Without memory nothing changes.
    pub(crate) fn add_breakpoint(
        &mut self,
        method: MethodNumber,
        instruction: u32,
    ) -> Result<Breakpoint, AllocError>
        requires body { IsBody self.old }
        requires number { self.old.breakpoints.next < 2 ^ 32 }
        ensures body { IsBody self.new }
        ensures breakpoint { IfOk result (λ b. b ≡ record {
          number = self.old.breakpoints.next;
          method = method;
          instruction = instruction;
        }) }
        ensures debugger { IfOk result
            (λ b. debugger_of self.new ≡ with_breakpoints (debugger_of self.old)
            (self.old.breakpoints.items ++ b ∷ []) (self.old.breakpoints.next + 1)) }
        ensures kept { OnErr result (debugger_of self.new ≡ debugger_of self.old) }
    {
        let breakpoint = self.breakpoints.add(method, instruction)?;
        self.replayed = 0;
        Ok(breakpoint)
    }
}
