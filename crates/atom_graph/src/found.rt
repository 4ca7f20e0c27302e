//! The first cycle of a trace.

ghost use Rattle.std.specs.Prelude.{◌≡◌, ◌∷◌, [], IfOk, map, reverse};
ghost use Rattle.atom_order.specs.declared.link.Link.{Link};
ghost use Rattle.atom_order.specs.Trails.{transactions_along, pairs_along};
ghost use Rattle.atom_graph.specs.Reduced.{IsFoundBy, IsShown};

use atom_order::{Closing, Link};
use shared_data::items::Items;
use std::alloc::{AllocError, Global};
use velodrome::verdict::{ConflictingPair, Verdict};

/// The event that closed a cycle, the transactions of the cycle, and a pair of events from each to the next.
#[derive(Debug, Drop)]
pub(crate) struct Found {
    pub first_at: u64,
    pub transactions: Items<u64>,
    pub pairs: Items<ConflictingPair>,
}

/// Returns the transactions that links lead from, the last link's first.
fn sources(alloc: Global, trail: &[Link]) -> Result<Vec<u64>, AllocError>
    ensures { IfOk result (λ v. v.items ≡ map (λ (l : Link). l.from) (reverse trail.now)) }
{
    trail.iter().rev().map(|link| link.from).collect(alloc)
}

/// Returns the pairs of links, the last link's first.
fn pairs(alloc: Global, trail: &[Link]) -> Result<Vec<ConflictingPair>, AllocError>
    ensures { IfOk result (λ v. v.items ≡ map (λ (l : Link). l.pair) (reverse trail.now)) }
{
    trail.iter().rev().map(|link| link.pair).collect(alloc)
}

/// Returns the transactions that links lead from, the last link's first, followed by one more.
fn transactions_of(alloc: Global, trail: &[Link], last: u64) -> Result<Vec<u64>, AllocError>
    ensures { IfOk result (λ v. v.items ≡ transactions_along (last ∷ []) trail.now) }
{
    let mut transactions = sources(alloc, trail)?;
    transactions.push(last)?;
    Ok(transactions)
}

/// Returns the pairs of links, the last link's first, followed by one more.
fn pairs_of(
    alloc: Global,
    trail: &[Link],
    last: ConflictingPair,
) -> Result<Vec<ConflictingPair>, AllocError>
    ensures { IfOk result (λ v. v.items ≡ pairs_along (last ∷ []) trail.now) }
{
    let mut all = pairs(alloc, trail)?;
    all.push(last)?;
    Ok(all)
}

impl Found {
    /// Returns the cycle that a link of event `number` closes.
    pub(crate) fn by(alloc: Global, number: u64, closing: &Closing) -> Result<Self, AllocError>
        ensures { IfOk result (λ f. IsFoundBy number closing.now f) }
    {
        let trail = closing.trail.as_slice();
        Ok(Found {
            first_at: number,
            transactions: Items::from_vec(transactions_of(alloc, trail, closing.by.from)?),
            pairs: Items::from_vec(pairs_of(alloc, trail, closing.by.pair)?),
        })
    }

    /// Returns the verdict that shows the cycle.
    pub(crate) fn verdict(&self, alloc: Global) -> Result<Verdict, AllocError>
        ensures { IfOk result (IsShown self.now) }
    {
        Ok(Verdict::Cycle {
            first_at: self.first_at,
            transactions: Items::from_vec(Vec::from_slice(alloc, self.transactions.as_slice())?),
            pairs: Items::from_vec(Vec::from_slice(alloc, self.pairs.as_slice())?),
        })
    }
}
