//! Finds a shortest cycle that a link closes, by the distances of specs/Distances.antt. It runs only if a cycle is
//! known, so other links cost nothing more.

ghost use Rattle.std.specs.Prelude.{◌≡◌, ◌≢◌, ℕ, ◌+◌, ◌<◌, ◌^◌, true, Some, length, IfOk, MatchOption};
ghost use Rattle.atom_order.specs.Distances.{AreDistances, AreFar, IsNext, distance_in};
ghost use Rattle.atom_order.specs.Reaching.{is_among};
ghost use Rattle.atom_order.specs.Shapes.{into_in, IsUsable, ClosesCycle, ClosesNone};
ghost use Rattle.atom_order.specs.Trails.{IsTrail};

use super::Graph;
use crate::distances::{Near, nearest};
use crate::link::{Closing, Link};
use std::alloc::AllocError;
use std::collections::BTreeMap;

impl Graph {
    /// Returns the distance of y from the start, if it has one. It is 0 for the start, else 1 more than the least
    /// distance of a transaction with a link into y.
    fn distance(&self, y: u64, start: u64, distances: &BTreeMap<u64, usize>) -> Option<usize>
        requires fits { (x n : ℕ) → distance_in distances.now.entries x ≡ Some n → n + 1 < 2 ^ 64 }
        ensures { MatchOption result
            ((y ≢ start) × AreFar (into_in self.now y) distances.now.entries)
            (IsNext start y (into_in self.now y) distances.now.entries) }
    {
        if y == start {
            return Some(0);
        }
        match nearest(self.links_into(y), distances) {
            Some(near) => Some(near.distance + 1),
            None => None,
        }
    }

    /// Returns the distance of each live transaction that one reaches. It makes one pass over the order.
    fn distances(&self, transaction: u64) -> Result<BTreeMap<u64, usize>, AllocError>
        requires live { is_among transaction self.now.live ≡ true }
        requires usable { IsUsable self.now }
        ensures { IfOk result
            (λ m. AreDistances self.now.live (into_in self.now) transaction m.entries) }
    {
        let mut live = Vec::new(self.alloc);
        self.order.append_live(&mut live)?;
        let mut distances = BTreeMap::new(self.alloc);
        for y in live.as_slice() {
            if let Some(distance) = self.distance(*y, transaction, &distances) {
                distances.insert(*y, distance)?;
            }
        }
        Ok(distances)
    }

    /// Returns a shortest list of links that lead back to a transaction from where the start link begins.
    fn trail(
        &self,
        transaction: u64,
        start: Near,
        distances: &BTreeMap<u64, usize>,
    ) -> Result<Vec<Link>, AllocError>
        requires distances { AreDistances self.now.live
            (into_in self.now) transaction distances.now.entries }
        requires start { distance_in distances.now.entries start.link.from ≡ Some start.distance }
        ensures way { IfOk result
            (λ v. IsTrail self.now.live (into_in self.now) transaction start.link.from v.items) }
        ensures long { IfOk result (λ v. length v.items ≡ start.distance) }
    {
        let mut trail = Vec::new(self.alloc);
        let mut at = start.link.from;
        while at != transaction {
            match nearest(self.links_into(at), distances) {
                Some(near) => {
                    trail.push(near.link)?;
                    at = near.link.from;
                }
                None => return Ok(trail),
            }
        }
        Ok(trail)
    }

    /// Returns a shortest cycle that one of the links would close, if any would.
    pub(super) fn closing(
        &self,
        transaction: u64,
        links: &[Link],
    ) -> Result<Option<Closing>, AllocError>
        requires live { is_among transaction self.now.live ≡ true }
        requires usable { IsUsable self.now }
        ensures { IfOk result (λ o. MatchOption o (ClosesNone transaction links.now self.now)
            (ClosesCycle transaction links.now self.now)) }
    {
        let distances = self.distances(transaction)?;
        match nearest(links, &distances) {
            Some(near) => Ok(Some(Closing {
                by: near.link,
                trail: self.trail(transaction, near, &distances)?,
            })),
            None => Ok(None),
        }
    }
}
