//! The graph of live transactions, with the accesses that its links come from.

ghost use Rattle.std.specs.Prelude.{◌≡◌, ◌++◌, [], IfOk, OnOk, OnErr, MatchOption};
ghost use Rattle.atom_order.specs.Shapes.{ClosesCycle, no_transactions};
ghost use Rattle.accesses.specs.Rooms.{kept_of};
ghost use Rattle.atom_graph.specs.Reduced.{IsClosedBy, IsGrown, IsLike, IsOverIn, IsReady, IsTaken, MayClose};

use crate::found::Found;
use crate::stay::Stay;
use accesses::Accesses;
use atom_order::{Closing, Graph, Link};
use jvms_machine::trace::Item;
use std::alloc::{AllocError, Global};

/// The graph of live transactions, and the remembered accesses of the trace.
#[derive(Drop)]
pub(crate) struct Reduced {
    pub graph: Graph,
    pub accesses: Accesses,
    /// The links of the last event. Their memory is reused.
    pub links: Vec<Link>,
}

impl Reduced {
    /// Returns the state before any event.
    pub(crate) fn new(alloc: Global) -> Result<Self, AllocError>
        ensures { IfOk result (λ r. (r.graph ≡ no_transactions) × (kept_of r.accesses ≡ [])) }
    {
        Ok(Reduced {
            graph: Graph::new(alloc)?,
            accesses: Accesses::new(alloc),
            links: Vec::new(alloc),
        })
    }

    /// Adds an event in a transaction. If one of its links closes a cycle, returns that cycle. In that case, and
    /// without memory, nothing changes.
    pub(crate) fn event(
        &mut self,
        alloc: Global,
        number: u64,
        transaction: u64,
        stay: Stay,
        hash: u32,
        item: &Item,
    ) -> Result<Option<Found>, AllocError>
        requires { IsReady stay transaction self.old.graph }
        ensures ok { IfOk result
            (λ o. MatchOption o (IsTaken number transaction stay item.now self.old self.new)
            (λ f. IsClosedBy number transaction item.now self.old f)) }
        ensures err { OnErr result (IsLike self.old self.new) }
    {
        self.accesses.reserve(hash, item)?;
        self.accesses.ready_links(number, item, &mut self.links)?;
        let live = self.graph.live_links(transaction, self.links.as_slice())?;
        match grow(&mut self.graph, transaction, stay, live)? {
            Some(closing) => Ok(Some(Found::by(alloc, number, &closing)?)),
            None => {
                self.accesses.note(number, transaction, item);
                Ok(None)
            }
        }
    }

    /// Closes a transaction that ended, if there is one.
    pub(crate) fn leave(&mut self, over: Option<u64>) -> Result<(), AllocError>
        requires { MayClose over self.old.graph }
        ensures ok { OnOk result (IsOverIn over self.old self.new) }
        ensures err { OnErr result (IsLike self.old self.new) }
    {
        match over {
            Some(transaction) => self.graph.close(transaction),
            None => Ok(()),
        }
    }

    /// Returns all transactions, each once, with no edge from a later to an earlier one.
    pub(crate) fn order(&self, alloc: Global) -> Result<Vec<u64>, AllocError>
        ensures { IfOk result (λ v. v.items ≡ self.now.graph.dropped ++ self.now.graph.live) }
    {
        self.graph.order(alloc)
    }
}

/// Adds the links of an event to the graph, and its transaction if the event is the first. If a link closes a cycle,
/// returns it. In that case, and without memory, nothing changes.
fn grow(
    graph: &mut Graph,
    transaction: u64,
    stay: Stay,
    links: Vec<Link>,
) -> Result<Option<Closing>, AllocError>
    requires { IsReady stay transaction graph.old }
    ensures ok { IfOk result
        (λ o. MatchOption o (IsGrown stay transaction links.items graph.old graph.new)
        (λ c. (graph.new ≡ graph.old) × ClosesCycle transaction links.items graph.old c)) }
    ensures err { OnErr result (graph.new ≡ graph.old) }
{
    match stay {
        Stay::Begins { is_open } => {
            graph.slots_fit();
            graph.begin(is_open, links)?;
            Ok(None)
        }
        Stay::KeepsGoing => graph.link(transaction, links.as_slice()),
    }
}
