//! Adds links, and moves what they lead back to after the others (Velodrome section 3).

ghost use Rattle.std.specs.Prelude.{◌≡◌, true, IfOk, OnErr, MatchOption};
ghost use Rattle.atom_order.specs.Reaching.{is_among};
ghost use Rattle.atom_order.specs.Shapes.{IsUsable, IsLinking, ClosesCycle};

use super::Graph;
use crate::link::{Closing, Link};
use std::alloc::AllocError;

impl Graph {
    /// Adds links into a live transaction. If one leads back, the transaction and what it reaches move after the
    /// others. If some close a cycle, returns a shortest such cycle. In that case, and without memory, nothing changes.
    pub fn link(&mut self, transaction: u64, links: &[Link]) -> Result<Option<Closing>, AllocError>
        requires live { is_among transaction self.old.live ≡ true }
        requires usable { IsUsable self.old }
        ensures ok { IfOk result
            (λ o. MatchOption o (IsLinking transaction links.now self.old self.new)
            (λ c. (self.new ≡ self.old) × ClosesCycle transaction links.now self.old c)) }
        ensures err { OnErr result (self.new ≡ self.old) }
    {
        if !self.order.leads_back(transaction, links) {
            self.order.add_links(transaction, links)?;
            return Ok(None);
        }
        match self.order.reached(transaction, links)? {
            Some(reached) => {
                self.order
                    .add_and_move(transaction, links, reached.as_slice())?;
                Ok(None)
            }
            None => self.closing(transaction, links),
        }
    }
}
