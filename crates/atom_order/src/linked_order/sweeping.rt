//! Searches forward along links. They take live transactions in order, so all that lead into one come before it.

ghost use Rattle.std.specs.Prelude.{◌≡◌, ℕ, ◌<◌, ◌≤◌, ◌&&◌, ◌==◌, ◌∷◌, [], true, false, not, nat_lt, drop, Some, IfOk, IfSome, IfNone, IsSome, OnOk, MatchOption, length, get_or};
ghost use Rattle.std.specs.List.{IsDistinct, list_any};
ghost use Rattle.atom_order.specs.declared.link.Link.{Link};
ghost use Rattle.atom_order.specs.Exits.{links_at, source_at};
ghost use Rattle.atom_order.specs.LinkedOrder.{shape_of};
ghost use Rattle.atom_order.specs.Marking.{has_key};
ghost use Rattle.atom_order.specs.Reaching.{is_among, LeadForward};
ghost use Rattle.atom_order.specs.Shapes.{ClosesSome, IsUsable, order_of};
ghost use Rattle.atom_order.specs.Slots.{live_of, IsRank};
ghost use Rattle.atom_order.specs.Sweeps.{AreGone, AreReached, HasEntered, IsFollowed, IsEnd};

use super::LinkedOrder;
use crate::link::Link;
use crate::numbers::Numbers;
use crate::slots::Exit;
use std::alloc::{AllocError, Global};
use std::collections::BTreeSet;

impl LinkedOrder {
    /// Returns what a live transaction reaches by links, in order and with itself. Returns `None` if one of these links
    /// leads from there.
    pub fn reached(&self, transaction: u64, links: &[Link]) -> Result<Option<Vec<u64>>, AllocError>
        requires live { is_among transaction (live_of self.now.slots) ≡ true }
        requires distinct { IsDistinct (λ x y. x == y) (live_of self.now.slots) }
        requires forward { LeadForward (links_at self.now.into) (live_of self.now.slots) }
        ensures { IfOk result
            (λ o. MatchOption o (ClosesSome transaction links.now (shape_of [] self.now []))
            (λ v. AreReached transaction links.now (order_of (shape_of [] self.now [])) v.items)) }
    {
        match self.slots.rank_of(transaction) {
            Some(rank) => self.reached_from(transaction, rank, links),
            None => Ok(Some(Vec::new(self.alloc))),
        }
    }

    /// Returns what the transaction at a rank reaches.
    fn reached_from(
        &self,
        transaction: u64,
        rank: usize,
        links: &[Link],
    ) -> Result<Option<Vec<u64>>, AllocError>
        requires rank { IsRank self.now.slots transaction rank }
        requires distinct { IsDistinct (λ x y. x == y) (live_of self.now.slots) }
        requires forward { LeadForward (links_at self.now.into) (live_of self.now.slots) }
        ensures { IfOk result
            (λ o. MatchOption o (ClosesSome transaction links.now (shape_of [] self.now []))
            (λ v. AreReached transaction links.now (order_of (shape_of [] self.now [])) v.items)) }
    {
        let sources = sources(self.alloc, links)?;
        let mut reached = Vec::new(self.alloc);
        let mut work = BTreeSet::new(self.alloc);
        work.insert(rank)?;
        while let Some(next) = work.pop_first() {
            let found = self.slots.transaction_at(next);
            if sources.contains(&found) {
                return Ok(None);
            }
            reached.push(found)?;
            self.follow(next, &[], &mut work)?;
        }
        Ok(Some(reached))
    }

    /// Returns what doesn't stay live after a live transaction closes, in order. Returns `None` if that is the
    /// transaction alone.
    pub fn gone(
        &mut self,
        transaction: u64,
        is_open: &[bool],
    ) -> Result<Option<Vec<u64>>, AllocError>
        requires live { is_among transaction (live_of self.old.slots) ≡ true }
        requires usable { IsUsable (shape_of [] self.old is_open.now) }
        requires last { list_any (λ (l : Link). is_among l.from (live_of self.old.slots))
            (links_at self.old.into transaction) ≡ false }
        ensures same { self.new ≡ self.old }
        ensures gone { IfOk result
            (λ o. MatchOption o
            (AreGone transaction (order_of (shape_of [] self.old is_open.now)) (transaction ∷ []))
            (λ v. AreGone transaction (order_of (shape_of [] self.old is_open.now)) v.items)) }
    {
        match self.slots.rank_of(transaction) {
            Some(rank) => self.gone_from(transaction, rank, is_open),
            None => Ok(None),
        }
    }

    /// Returns what doesn't stay live after the transaction at a rank closes.
    fn gone_from(
        &mut self,
        transaction: u64,
        rank: usize,
        is_open: &[bool],
    ) -> Result<Option<Vec<u64>>, AllocError>
        requires rank { IsRank self.old.slots transaction rank }
        requires usable { IsUsable (shape_of [] self.old is_open.now) }
        requires last { list_any (λ (l : Link). is_among l.from (live_of self.old.slots))
            (links_at self.old.into transaction) ≡ false }
        ensures same { self.new ≡ self.old }
        ensures gone { IfOk result
            (λ o. MatchOption o
            (AreGone transaction (order_of (shape_of [] self.old is_open.now)) (transaction ∷ []))
            (λ v. AreGone transaction (order_of (shape_of [] self.old is_open.now)) v.items)) }
    {
        let mut work = BTreeSet::new(self.alloc);
        self.follow(rank, is_open, &mut work)?;
        if work.is_empty() {
            return Ok(None);
        }
        let mut gone = Numbers::new(self.alloc);
        gone.push(transaction)?;
        while let Some(next) = work.pop_first() {
            if !self.is_linked(next, &gone) {
                gone.push(self.slots.transaction_at(next))?;
                self.follow(next, is_open, &mut work)?;
            }
        }
        Ok(Some(gone.into_vec()))
    }

    /// Adds the ranks of the live transactions that links lead to from the one at a rank, but for those to be left out.
    fn follow(
        &self,
        rank: usize,
        left_out: &[bool],
        work: &mut BTreeSet<usize>,
    ) -> Result<(), AllocError>
        requires live { (x : ℕ) × IsRank self.now.slots x rank }
        requires forward { LeadForward (links_at self.now.into) (live_of self.now.slots) }
        ensures { OnOk result (IsFollowed (get_or self.now.slots rank 0) self.now left_out.now
            work.old.keys work.new.keys) }
    {
        let from = self.slots.transaction_at(rank);
        for exit in self.slots.exits_at(rank) {
            self.enter(*exit, from, left_out, work)?;
        }
        Ok(())
    }

    /// Adds the rank of the live transaction that an exit leads to, unless that one is to be left out.
    fn enter(
        &self,
        exit: Exit,
        from: u64,
        left_out: &[bool],
        work: &mut BTreeSet<usize>,
    ) -> Result<(), AllocError>
        ensures { OnOk result
            (HasEntered exit from self.now left_out.now work.old.keys work.new.keys) }
    {
        if let Some(end) = self.end_of(exit, from, left_out) {
            work.insert(end)?;
        }
        Ok(())
    }

    /// Returns the rank of the live transaction that an exit leads to, unless that one is to be left out.
    fn end_of(&self, exit: Exit, from: u64, left_out: &[bool]) -> Option<usize>
        ensures some { IfSome result (IsEnd exit from self.now left_out.now) }
        ensures alone { IfSome result (λ k. (j : ℕ) → IsRank self.now.slots exit.to j → j ≡ k) }
        ensures none { IfNone result
            ((k : ℕ) → IsEnd exit from self.now left_out.now k → ⊥) }
    {
        if is_marked(left_out, exit.to) {
            return None;
        }
        match self.source_of(exit) {
            Some(source) if source == from => self.slots.rank_of(exit.to),
            _ => None,
        }
    }

    /// Decides whether a link leads into the transaction at a rank from a live one that isn't among these.
    fn is_linked(&mut self, rank: usize, gone: &Numbers) -> bool
        requires { (x : ℕ) × IsRank self.old.slots x rank }
        ensures same { self.new ≡ self.old }
        ensures linked { result ≡ list_any (λ (l : Link). is_among l.from (live_of self.old.slots)
            && not (is_among l.from gone.now)) (links_at self.old.into (get_or self.old.slots rank 0)) }
    {
        let passed = self.pass(rank);
        self.is_linked_after(rank, passed, gone)
    }

    /// Passes first links into the transaction at a rank, all of which lead from dropped ones. Returns how many.
    fn pass(&mut self, rank: usize) -> usize
        requires { (x : ℕ) × IsRank self.old.slots x rank }
        ensures same { self.new ≡ self.old }
        ensures within { result ≤ length (links_at self.old.into (get_or self.old.slots rank 0)) }
        ensures dropped { (i x : ℕ) → i < result
            → source_at (links_at self.old.into (get_or self.old.slots rank 0)) i ≡ Some x
            → (x < length self.old.into) × (is_among x (live_of self.old.slots) ≡ false) }
    {
        let passed = self.passed(rank);
        self.slots.pass(rank, passed);
        passed
    }

    /// Returns a number of first links into the transaction at a rank, all of which lead from dropped ones.
    fn passed(&self, rank: usize) -> usize
        requires { (x : ℕ) × IsRank self.now.slots x rank }
        ensures within { result ≤ length (links_at self.now.into (get_or self.now.slots rank 0)) }
        ensures dropped { (i x : ℕ) → i < result
            → source_at (links_at self.now.into (get_or self.now.slots rank 0)) i ≡ Some x
            → (x < length self.now.into) × (is_among x (live_of self.now.slots) ≡ false) }
    {
        let links = self.links_into(self.slots.transaction_at(rank));
        let mut passed = self.slots.passed_at(rank);
        while passed < links.len() && self.is_dropped(links[passed].from) {
            passed += 1;
        }
        passed
    }

    /// Decides whether a link after the passed ones leads into the transaction at a rank from a live one that isn't
    /// among the gone ones.
    fn is_linked_after(&self, rank: usize, passed: usize, gone: &Numbers) -> bool
        requires rank { rank < length self.now.slots }
        requires within { passed ≤ length (links_at self.now.into (get_or self.now.slots rank 0)) }
        ensures { result ≡ list_any (λ (l : Link). is_among l.from (live_of self.now.slots)
            && not (is_among l.from gone.now))
            (drop passed (links_at self.now.into (get_or self.now.slots rank 0))) }
    {
        let links = self.links_into(self.slots.transaction_at(rank));
        self.holds(&links[passed..], gone)
    }

    /// Decides whether one of these links leads from a live transaction that isn't among the gone ones.
    fn holds(&self, links: &[Link], gone: &Numbers) -> bool
        ensures { result ≡ list_any (λ (l : Link). is_among l.from (live_of self.now.slots)
            && not (is_among l.from gone.now)) links.now }
    {
        links.iter().any(|link| self.is_live(link.from) && !gone.contains(link.from))
    }

    /// Decides whether a transaction has begun and isn't live.
    fn is_dropped(&self, transaction: u64) -> bool
        ensures { result ≡ (nat_lt transaction (length self.now.into)
            && not (is_among transaction (live_of self.now.slots))) }
    {
        transaction < self.next() && !self.is_live(transaction)
    }
}

/// Returns the transactions that links lead from.
fn sources(alloc: Global, links: &[Link]) -> Result<BTreeSet<u64>, AllocError>
    ensures { IfOk result
        (λ s. (x : ℕ) → has_key s.keys x ≡ list_any (λ (l : Link). x == l.from) links.now) }
{
    let mut all = BTreeSet::new(alloc);
    for link in links {
        all.insert(link.from)?;
    }
    Ok(all)
}

/// Decides whether a transaction is marked.
fn is_marked(marks: &[bool], transaction: u64) -> bool
    ensures { result ≡ get_or marks.now transaction false }
{
    let number = transaction as usize;
    if number >= marks.len() {
        return false;
    }
    marks[number]
}
