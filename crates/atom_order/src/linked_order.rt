//! The live transactions in order, and the links between them.

ghost use Rattle.std.specs.Prelude.{◌≡◌, ◌<◌, ◌∷◌, ◌++◌, [], true, length, drop, IfOk, OnOk};
ghost use Rattle.std.specs.List.{list_any};
ghost use Rattle.atom_order.specs.declared.link.Link.{Link};
ghost use Rattle.atom_order.specs.Exits.{links_at, source_at};
ghost use Rattle.atom_order.specs.Reaching.{is_among};
ghost use Rattle.atom_order.specs.Slots.{live_of, numbers_of};
ghost use Rattle.atom_order.specs.Sweeps.{from_on};

mod changing;
mod sweeping;

use crate::link::Link;
use crate::links::Links;
use crate::slots::{Exit, Slots};
use std::alloc::{AllocError, Global};
use std::marker::Model;

/// The live transactions in order, and the links into all that have begun.
#[derive(Drop)]
pub struct LinkedOrder {
    slots: Slots,
    into: Vec<Links>,
    alloc: Global,
}

impl Model for LinkedOrder {
    ghost use Rattle.std.specs.Prelude.{◌≡◌, length};
    ghost use Rattle.atom_order.specs.LinkedOrder.{Ranked};
    ghost use Rattle.atom_order.specs.Exits.{AreLinked};
    ghost use Rattle.atom_order.specs.Slots.{numbers_of};

    ghost Value = { Ranked };

    ghost view = { λ o. record { slots = numbers_of o.slots.slots; into = o.into.items } };

    ghost invariant = { λ o. (o.slots.next ≡ length o.into.items)
        × AreLinked o.slots.slots o.into.items };
}

impl LinkedOrder {
    /// Returns an order without transactions.
    pub fn new(alloc: Global) -> Result<Self, AllocError>
        ensures { IfOk result (λ o. o ≡ record { slots = []; into = [] ∷ [] }) }
    {
        let mut into = Vec::new(alloc);
        into.push(Links::new(alloc))?;
        Ok(LinkedOrder {
            slots: Slots::new(alloc)?,
            into,
            alloc,
        })
    }

    /// Decides whether a transaction is live.
    pub fn is_live(&self, transaction: u64) -> bool
        ensures { result ≡ is_among transaction (live_of self.now.slots) }
    {
        match self.slots.rank_of(transaction) {
            Some(_) => true,
            None => false,
        }
    }

    /// Returns the number of live transactions.
    pub fn live_count(&self) -> usize
        ensures { result ≡ length (live_of self.now.slots) }
    {
        self.slots.live_count()
    }

    /// Appends the live transactions to a list.
    pub fn append_live(&self, list: &mut Vec<u64>) -> Result<(), AllocError>
        ensures { OnOk result (list.new.items ≡ list.old.items ++ live_of self.now.slots) }
    {
        self.slots.append_live(list)
    }

    /// Returns the number of the next transaction.
    pub fn next(&self) -> u64
        ensures { result ≡ length self.now.into }
    {
        self.into.len() as u64
    }

    /// Returns the links into a transaction, or none if it hasn't begun.
    pub fn links_into(&self, transaction: u64) -> &[Link]
        ensures { result.now ≡ links_at self.now.into transaction }
    {
        let number = transaction as usize;
        if number >= self.into.len() {
            return &[];
        }
        self.into[number].as_slice()
    }

    /// Decides whether a link leads into a live transaction from a live one.
    pub fn has_live_link(&self, transaction: u64) -> bool
        requires { is_among transaction (live_of self.now.slots) ≡ true }
        ensures linked { result ≡ list_any (λ (l : Link). is_among l.from (live_of self.now.slots))
            (links_at self.now.into transaction) }
        ensures known { transaction < length self.now.into }
    {
        let _ = &self.into;
        self.links_into(transaction)
            .iter()
            .any(|link| self.is_live(link.from))
    }

    /// Decides whether a link leads from a live transaction or from one after it.
    pub fn leads_back(&self, transaction: u64, links: &[Link]) -> bool
        requires { is_among transaction (live_of self.now.slots) ≡ true }
        ensures { result ≡ list_any
            (λ (l : Link). is_among l.from (from_on transaction (live_of self.now.slots))) links.now }
    {
        match self.slots.rank_of(transaction) {
            Some(rank) => leads_from(&self.slots, rank, links),
            None => false,
        }
    }

    /// Returns the transaction that a link leads from, by the exit of that one.
    fn source_of(&self, exit: Exit) -> Option<u64>
        ensures { result ≡ source_at (links_at self.now.into exit.to) exit.link }
    {
        let links = self.links_into(exit.to);
        if exit.link >= links.len() {
            return None;
        }
        Some(links[exit.link].from)
    }
}

/// Decides whether a transaction is live and its rank isn't below another one.
fn is_at_or_after(slots: &Slots, transaction: u64, rank: usize) -> bool
    ensures { result ≡ is_among transaction (live_of (drop rank (numbers_of slots.now.slots))) }
{
    match slots.rank_of(transaction) {
        Some(found) => rank <= found,
        None => false,
    }
}

/// Decides whether a link leads from a live transaction whose rank isn't below another one.
fn leads_from(slots: &Slots, rank: usize, links: &[Link]) -> bool
    ensures { result ≡ list_any
        (λ (l : Link). is_among l.from (live_of (drop rank (numbers_of slots.now.slots)))) links.now }
{
    links
        .iter()
        .any(|link| is_at_or_after(slots, link.from, rank))
}
