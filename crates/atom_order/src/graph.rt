//! The graph of live transactions.

ghost use Rattle.std.specs.Prelude.{◌&&◌, ◌≡◌, ◌<◌, ◌^◌, ◌++◌, false, true, length, IfOk, OnOk, OnErr};
ghost use Rattle.atom_order.specs.declared.link.Link.{Link};
ghost use Rattle.atom_order.specs.Reaching.{is_among};
ghost use Rattle.atom_order.specs.Shapes.{no_transactions, live_links, shape_after_begin, into_in, open_in};

mod closing;
mod linking;
mod shortest;

use crate::link::Link;
use crate::linked_order::LinkedOrder;
use std::alloc::{AllocError, Global};
use std::marker::Model;

/// Transactions by number, from 1: an order of all of them, and the links between the live ones.
#[derive(Drop)]
pub struct Graph {
    dropped: Vec<u64>,
    order: LinkedOrder,
    is_open: Vec<bool>,
    alloc: Global,
}

impl Model for Graph {
    ghost use Rattle.std.specs.Prelude.{◌≡◌, length};
    ghost use Rattle.atom_order.specs.LinkedOrder.{shape_of};
    ghost use Rattle.atom_order.specs.Shapes.{Shape};

    ghost Value = { Shape };

    ghost view = { λ g. shape_of g.dropped.items g.order g.is_open.items };

    ghost invariant = { λ g. length g.is_open.items ≡ length g.order.into };
}

impl Graph {
    /// Returns a graph without transactions.
    pub fn new(alloc: Global) -> Result<Self, AllocError>
        ensures { IfOk result (λ g. g ≡ no_transactions) }
    {
        Ok(Graph {
            dropped: Vec::new(alloc),
            order: LinkedOrder::new(alloc)?,
            is_open: vec![in alloc; false]?,
            alloc,
        })
    }

    /// Decides whether a transaction is live: it is open, or an open one reaches it.
    pub fn is_live(&self, transaction: u64) -> bool
        ensures { result ≡ is_among transaction self.now.live }
    {
        self.order.is_live(transaction)
    }

    /// Returns the number of live transactions.
    pub fn live_count(&self) -> usize
        ensures { result ≡ length self.now.live }
    {
        self.order.live_count()
    }

    /// Returns the dropped transactions in order. All of them come before the live ones.
    pub fn dropped(&self) -> &[u64]
        ensures { result.now ≡ self.now.dropped }
    {
        self.dropped.as_slice()
    }

    /// Returns all transactions in order: the dropped ones, and the live ones.
    pub fn order(&self, alloc: Global) -> Result<Vec<u64>, AllocError>
        ensures { IfOk result (λ v. v.items ≡ self.now.dropped ++ self.now.live) }
    {
        let mut order = Vec::from_slice(alloc, self.dropped.as_slice())?;
        self.order.append_live(&mut order)?;
        Ok(order)
    }

    /// Returns the number of the next transaction.
    pub fn next(&self) -> u64
        ensures { result ≡ length self.now.into }
    {
        self.order.next()
    }

    /// Proves to a caller that the lists of open marks and of links have the same length. It does nothing.
    pub fn slots_fit(&self)
        ensures { length self.now.is_open ≡ length self.now.into }
    {
        let _ = &self.dropped;
    }

    /// Returns the links that lead from live transactions other than this one.
    pub fn live_links(&self, transaction: u64, links: &[Link]) -> Result<Vec<Link>, AllocError>
        ensures { IfOk result (λ v. v.items ≡ live_links transaction self.now.live links.now) }
    {
        links
            .iter()
            .copied()
            .filter(|link| self.is_live(link.from) && link.from != transaction)
            .collect(self.alloc)
    }

    /// Begins the next transaction with these links. If it is closed and has no links, it is dropped immediately.
    /// Without memory nothing changes.
    pub fn begin(&mut self, is_open: bool, links: Vec<Link>) -> Result<(), AllocError>
        requires { length self.old.into < 2 ^ 63 }
        ensures ok { OnOk result (self.new ≡ shape_after_begin is_open links.items self.old) }
        ensures err { OnErr result (self.new ≡ self.old) }
    {
        self.is_open.reserve(1)?;
        if is_open || !links.is_empty() {
            self.order.push(links)?;
            self.is_open.push_reserved(is_open);
            return Ok(());
        }
        self.dropped.reserve(1)?;
        let transaction = self.order.next();
        self.order.skip(links)?;
        self.dropped.push_reserved(transaction);
        self.is_open.push_reserved(false);
        Ok(())
    }

    /// Returns the links into a transaction, or none if it hasn't begun.
    fn links_into(&self, transaction: u64) -> &[Link]
        ensures { result.now ≡ into_in self.now transaction }
    {
        self.order.links_into(transaction)
    }

    /// Decides whether a transaction is open.
    pub fn is_open(&self, transaction: u64) -> bool
        ensures { result ≡ open_in self.now transaction }
    {
        let slot = transaction as usize;
        if slot >= self.is_open.len() {
            return false;
        }
        self.is_open[slot]
    }
}
