//! The live transactions in order, in slots, with gaps where transactions were.

ghost use Rattle.std.specs.Prelude.{◌≡◌, ◌≢◌, ℕ, ◌+◌, ◌<◌, ◌≤◌, ◌++◌, ◌∷◌, ◌==◌, [], true, false, not, length, set, get_or, IfOk, IfSome, OnOk, OnErr, MatchOption};
ghost use Rattle.std.specs.List.{IsDistinct, filter};
ghost use Rattle.velodrome.specs.Cycles.{IsIn};
ghost use Rattle.atom_order.specs.declared.slots.Slot.{Slot};
ghost use Rattle.atom_order.specs.Keeping.{sides};
ghost use Rattle.atom_order.specs.Reaching.{is_among, ArePart};
ghost use Rattle.atom_order.specs.Slots.{gap, numbers_of, live_of, IsRank};

use shared_data::items::Items;
use std::alloc::{AllocError, Global};
use std::marker::Model;
use std::mem::replace;

/// A link that leads from a transaction: the one that it leads into, and its place among the links into that one.
#[derive(Clone, Copy, Debug)]
pub struct Exit {
    pub to: u64,
    pub link: usize,
}

/// A live transaction, or a gap.
#[derive(Debug, Drop)]
pub struct Slot {
    /// The transaction's number, or 0 in a gap.
    pub transaction: u64,
    /// A number of first links into it, all of which lead from dropped transactions.
    pub passed: usize,
    /// The links that lead from it, and some that were never added.
    pub exits: Items<Exit>,
}

impl Slot {
    /// Returns the slot of a transaction that no link leads from.
    fn new(alloc: Global, transaction: u64) -> Self
        ensures { result ≡ record gap { transaction = transaction } }
    {
        Slot {
            transaction,
            passed: 0,
            exits: Items::new(alloc),
        }
    }
}

/// The slots of the live transactions in order, and the rank of each: the place of its slot.
#[derive(Drop)]
pub struct Slots {
    slots: Vec<Slot>,
    ranks: Vec<usize>,
    count: usize,
    alloc: Global,
}

impl Model for Slots {
    ghost use Rattle.std.specs.Prelude.{length, vec_capacity};
    ghost use Rattle.atom_order.specs.Slots.{SlotList, AreRanks, numbers_of};

    ghost Value = { SlotList };

    ghost view = { λ s. record {
      slots = s.slots.items;
      next = length s.ranks.items;
      room = vec_capacity s.slots;
    } };

    ghost invariant = { λ s. AreRanks (numbers_of s.slots.items) s.ranks.items s.count };
}

impl Slots {
    /// Returns no slots. The first transaction is 1.
    pub fn new(alloc: Global) -> Result<Self, AllocError>
        ensures { IfOk result (λ s. (s.slots ≡ []) × (s.next ≡ 1)) }
    {
        Ok(Slots {
            slots: Vec::new(alloc),
            ranks: vec![in alloc; 0]?,
            count: 0,
            alloc,
        })
    }

    /// Returns the rank of a transaction, if it is live.
    pub fn rank_of(&self, transaction: u64) -> Option<usize>
        ensures rank { MatchOption result
            (is_among transaction (live_of (numbers_of self.now.slots)) ≡ false)
            (IsRank (numbers_of self.now.slots) transaction) }
        ensures alone { IfSome result
            (λ i. (j : ℕ) → IsRank (numbers_of self.now.slots) transaction j → j ≡ i) }
    {
        let number = transaction as usize;
        if number == 0 {
            return None;
        }
        if number >= self.ranks.len() {
            return None;
        }
        let rank = self.ranks[number];
        if rank >= self.slots.len() {
            return None;
        }
        if self.slots[rank].transaction != transaction {
            return None;
        }
        Some(rank)
    }

    /// Returns the number of live transactions.
    pub fn live_count(&self) -> usize
        ensures { result ≡ length (live_of (numbers_of self.now.slots)) }
    {
        self.count
    }

    /// Returns the transaction at a rank, or 0 in a gap.
    #[tactic(auto, using(crate::proofs::Gaps::numbers_len))]
    pub fn transaction_at(&self, rank: usize) -> u64
        requires { rank < length (numbers_of self.now.slots) }
        ensures { result ≡ get_or (numbers_of self.now.slots) rank 0 }
    {
        self.slots[rank].transaction
    }

    /// Returns the exits of the transaction at a rank.
    #[tactic(auto, using(crate::proofs::Gaps::numbers_len))]
    pub fn exits_at(&self, rank: usize) -> &[Exit]
        requires { rank < length (numbers_of self.now.slots) }
        ensures { result.now ≡ (get_or self.now.slots rank gap).exits }
    {
        self.slots[rank].exits.as_slice()
    }

    /// Returns the number of passed links into the transaction at a rank.
    #[tactic(auto, using(crate::proofs::Gaps::numbers_len))]
    pub fn passed_at(&self, rank: usize) -> usize
        requires { rank < length (numbers_of self.now.slots) }
        ensures { result ≡ (get_or self.now.slots rank gap).passed }
    {
        self.slots[rank].passed
    }

    /// Sets the number of passed links into the transaction at a rank.
    #[tactic(auto, using(crate::proofs::Gaps::numbers_len))]
    pub fn pass(&mut self, rank: usize, passed: usize)
        requires { rank < length (numbers_of self.old.slots) }
        ensures slots { self.new.slots ≡ set self.old.slots rank
            (record (get_or self.old.slots rank gap) { passed = passed }) }
        ensures next { self.new.next ≡ self.old.next }
    {
        let slot = &mut self.slots[rank];
        slot.passed = passed;
    }

    /// Appends an exit of the transaction at a rank. Without memory nothing changes.
    #[tactic(auto, using(crate::proofs::Gaps::numbers_len))]
    pub fn note(&mut self, rank: usize, exit: Exit) -> Result<(), AllocError>
        requires { rank < length (numbers_of self.old.slots) }
        ensures ok { OnOk result (self.new.slots ≡ set self.old.slots rank
            (record (get_or self.old.slots rank gap)
            { exits = (get_or self.old.slots rank gap).exits ++ exit ∷ [] })) }
        ensures err { OnErr result (self.new.slots ≡ self.old.slots) }
        ensures next { self.new.next ≡ self.old.next }
        ensures room { self.new.room ≡ self.old.room }
    {
        let slot = &mut self.slots[rank];
        slot.exits.push(exit)
    }

    /// Reserves the memory for more slots.
    pub fn reserve(&mut self, more: usize) -> Result<(), AllocError>
        ensures slots { self.new.slots ≡ self.old.slots }
        ensures next { self.new.next ≡ self.old.next }
        ensures room { OnOk result (length self.new.slots + more ≤ self.new.room) }
    {
        self.slots.reserve(more)
    }

    /// Appends the slot of the next transaction. Without memory no slot changes.
    pub fn push(&mut self) -> Result<(), AllocError>
        ensures slots { OnOk result
            (self.new.slots ≡ self.old.slots ++ record gap { transaction = self.old.next } ∷ []) }
        ensures next { OnOk result (self.new.next ≡ self.old.next + 1) }
        ensures err_slots { OnErr result (self.new.slots ≡ self.old.slots) }
        ensures err_next { OnErr result (self.new.next ≡ self.old.next) }
    {
        self.slots.reserve(1)?;
        self.ranks.reserve(1)?;
        let transaction = self.ranks.len() as u64;
        self.ranks.push_reserved(self.slots.len());
        self.slots.push_reserved(Slot::new(self.alloc, transaction));
        self.count += 1;
        Ok(())
    }

    /// Gives the next transaction no slot. Without memory nothing changes.
    pub fn skip(&mut self) -> Result<(), AllocError>
        ensures slots { self.new.slots ≡ self.old.slots }
        ensures next { OnOk result (self.new.next ≡ self.old.next + 1) }
        ensures err_next { OnErr result (self.new.next ≡ self.old.next) }
    {
        self.ranks.push(0)?;
        Ok(())
    }

    /// Makes the slot at a rank a gap.
    fn vacate_at(&mut self, rank: usize)
        requires { (x : ℕ) × IsRank (numbers_of self.old.slots) x rank }
        ensures live { (x : ℕ) → IsRank (numbers_of self.old.slots) x rank
            → live_of (numbers_of self.new.slots)
            ≡ filter (λ y. not (y == x)) (live_of (numbers_of self.old.slots)) }
        ensures slots { (s : Slot) → IsIn s self.new.slots → s.transaction ≢ 0
            → IsIn s self.old.slots }
        ensures next { self.new.next ≡ self.old.next }
    {
        self.slots[rank] = Slot::new(self.alloc, 0);
        self.count -= 1;
    }

    /// Makes the slot of a transaction a gap, if it is live.
    fn vacate(&mut self, transaction: u64)
        ensures live { live_of (numbers_of self.new.slots)
            ≡ filter (λ y. not (y == transaction)) (live_of (numbers_of self.old.slots)) }
        ensures slots { (s : Slot) → IsIn s self.new.slots → s.transaction ≢ 0
            → IsIn s self.old.slots }
        ensures next { self.new.next ≡ self.old.next }
    {
        match self.rank_of(transaction) {
            Some(rank) => self.vacate_at(rank),
            None => (),
        }
    }

    /// Makes the slots of transactions gaps.
    pub fn vacate_all(&mut self, gone: &[u64])
        ensures live { live_of (numbers_of self.new.slots)
            ≡ filter (λ x. not (is_among x gone.now)) (live_of (numbers_of self.old.slots)) }
        ensures slots { (s : Slot) → IsIn s self.new.slots → s.transaction ≢ 0
            → IsIn s self.old.slots }
        ensures next { self.new.next ≡ self.old.next }
    {
        for x in gone {
            self.vacate(*x);
        }
    }

    /// Moves the slot at a rank after the others.
    fn move_back_at(&mut self, rank: usize)
        requires live { (x : ℕ) × IsRank (numbers_of self.old.slots) x rank }
        requires room { length self.old.slots < self.old.room }
        ensures live { (x : ℕ) → IsRank (numbers_of self.old.slots) x rank
            → live_of (numbers_of self.new.slots)
            ≡ filter (λ y. not (y == x)) (live_of (numbers_of self.old.slots)) ++ x ∷ [] }
        ensures slots { (s : Slot) → IsIn s self.new.slots → s.transaction ≢ 0
            → IsIn s self.old.slots }
        ensures len { length self.new.slots ≡ length self.old.slots + 1 }
        ensures next { self.new.next ≡ self.old.next }
        ensures room { self.new.room ≡ self.old.room }
    {
        let gap = Slot::new(self.alloc, 0);
        let slot = replace(&mut self.slots[rank], gap);
        self.ranks[slot.transaction as usize] = self.slots.len();
        self.slots.push_reserved(slot);
    }

    /// Moves the slot of a live transaction after the others.
    fn move_back(&mut self, transaction: u64)
        requires live { is_among transaction (live_of (numbers_of self.old.slots)) ≡ true }
        requires room { length self.old.slots < self.old.room }
        ensures live { live_of (numbers_of self.new.slots)
            ≡ filter (λ y. not (y == transaction)) (live_of (numbers_of self.old.slots))
            ++ transaction ∷ [] }
        ensures slots { (s : Slot) → IsIn s self.new.slots → s.transaction ≢ 0
            → IsIn s self.old.slots }
        ensures len { length self.new.slots ≡ length self.old.slots + 1 }
        ensures next { self.new.next ≡ self.old.next }
        ensures room { self.new.room ≡ self.old.room }
    {
        match self.rank_of(transaction) {
            Some(rank) => self.move_back_at(rank),
            None => (),
        }
    }

    /// Moves the slots of live transactions after the others.
    pub fn move_all(&mut self, moved: &[u64])
        requires part { ArePart moved.now (live_of (numbers_of self.old.slots)) }
        requires distinct { IsDistinct (λ x y. x == y) (live_of (numbers_of self.old.slots)) }
        requires room { length self.old.slots + length moved.now ≤ self.old.room }
        ensures live { live_of (numbers_of self.new.slots)
            ≡ sides (λ x. is_among x moved.now) (live_of (numbers_of self.old.slots)) }
        ensures slots { (s : Slot) → IsIn s self.new.slots → s.transaction ≢ 0
            → IsIn s self.old.slots }
        ensures next { self.new.next ≡ self.old.next }
    {
        for x in moved {
            self.move_back(*x);
        }
    }

    /// Removes the gaps if at least half of the slots are gaps.
    pub fn tidy(&mut self)
        ensures live { live_of (numbers_of self.new.slots) ≡ live_of (numbers_of self.old.slots) }
        ensures slots { (s : Slot) → IsIn s self.new.slots → IsIn s self.old.slots }
        ensures next { self.new.next ≡ self.old.next }
    {
        if self.count <= self.slots.len() / 2 {
            remove_gaps(&mut self.slots);
            note_ranks(self.slots.as_slice(), &mut self.ranks);
        }
    }

    /// Appends the live transactions to a list.
    pub fn append_live(&self, list: &mut Vec<u64>) -> Result<(), AllocError>
        ensures { OnOk result
            (list.new.items ≡ list.old.items ++ live_of (numbers_of self.now.slots)) }
    {
        for slot in &self.slots {
            if slot.transaction != 0 {
                list.push(slot.transaction)?;
            }
        }
        Ok(())
    }
}

/// Removes the gaps.
fn remove_gaps(slots: &mut Vec<Slot>)
    ensures { slots.new.items ≡ filter (λ (s : Slot). not (s.transaction == 0)) slots.old.items }
{
    slots.retain(|slot| slot.transaction != 0);
}

/// Records the rank of the transaction of each slot.
fn note_ranks(slots: &[Slot], ranks: &mut Vec<usize>)
    requires known { (i : ℕ) → i < length slots.now
        → get_or (numbers_of slots.now) i 0 < length ranks.old.items }
    requires apart { (i j : ℕ) → i < j → j < length slots.now
        → get_or (numbers_of slots.now) i 0 ≢ get_or (numbers_of slots.now) j 0 }
    ensures len { length ranks.new.items ≡ length ranks.old.items }
    ensures at { (i : ℕ) → i < length slots.now
        → get_or ranks.new.items (get_or (numbers_of slots.now) i 0) 0 ≡ i }
{
    for i in 0..slots.len() {
        ranks[slots[i].transaction as usize] = i;
    }
}
