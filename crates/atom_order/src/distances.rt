//! Distances: the least number of links that lead back from one transaction to another.

ghost use Rattle.std.specs.Prelude.{◌++◌, ◌∷◌, [], List};
ghost use Rattle.atom_order.specs.Distances.{IsBest};
ghost use Rattle.atom_order.specs.declared.link.Link.{Link};

use crate::link::Link;
use std::collections::BTreeMap;

/// A link, with the distance of the transaction that it leads from.
#[derive(Clone, Copy)]
pub struct Near {
    /// The link.
    pub link: Link,
    /// The least number of links that lead back from that transaction.
    pub distance: usize,
}

/// Returns the link if its transaction is nearer than that of the best link so far, else the best one.
fn nearer(best: Option<Near>, link: Link, distances: &BTreeMap<u64, usize>) -> Option<Near>
    ensures { (links : List Link) → IsBest links distances.now.entries best
        → IsBest (links ++ link ∷ []) distances.now.entries result }
{
    match distances.get(&link.from).copied() {
        None => best,
        Some(distance) => match best {
            None => Some(Near { link, distance }),
            Some(before) => {
                if before.distance <= distance {
                    Some(before)
                } else {
                    Some(Near { link, distance })
                }
            }
        },
    }
}

/// Returns the first link whose transaction has the least distance, if any has one.
pub fn nearest(links: &[Link], distances: &BTreeMap<u64, usize>) -> Option<Near>
    ensures { IsBest links.now distances.now.entries result }
{
    let mut best = None;
    for link in links {
        best = nearer(best, *link, distances);
    }
    best
}
