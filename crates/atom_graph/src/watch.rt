//! The search for a cycle.

ghost use Rattle.std.specs.Prelude.{◌≡◌, [], None, IfOk, OnOk, OnErr};
ghost use Rattle.atom_order.specs.Shapes.{no_transactions};
ghost use Rattle.accesses.specs.Rooms.{kept_of};
ghost use Rattle.atom_graph.specs.Reduced.{IsReady, MayClose};
ghost use Rattle.atom_graph.specs.Watched.{IsIdle, HasEnded, IsOn};

use crate::found::Found;
use crate::reduced::Reduced;
use crate::stay::Stay;
use jvms_machine::trace::Item;
use std::alloc::{AllocError, Global};

/// The graph of live transactions until a cycle is found, and then the cycle.
#[derive(Drop)]
pub(crate) struct Watch {
    pub reduced: Reduced,
    pub found: Option<Found>,
    pub alloc: Global,
}

impl Watch {
    /// Returns the state before any event.
    pub(crate) fn new(alloc: Global) -> Result<Self, AllocError>
        ensures { IfOk result (λ v. (v.reduced.graph ≡ no_transactions)
            × (kept_of v.reduced.accesses ≡ []) × (v.found ≡ None)) }
    {
        Ok(Watch {
            reduced: Reduced::new(alloc)?,
            found: None,
            alloc,
        })
    }

    /// Adds an event in a transaction, unless a cycle was found before. Without memory nothing changes.
    pub(crate) fn event(
        &mut self,
        number: u64,
        transaction: u64,
        stay: Stay,
        hash: u32,
        item: &Item,
    ) -> Result<(), AllocError>
        requires { self.old.found ≡ None → IsReady stay transaction self.old.reduced.graph }
        ensures ok { OnOk result (IsOn number transaction stay item.now self.old self.new) }
        ensures err { OnErr result (IsIdle self.old self.new) }
    {
        if self.found.is_some() {
            return Ok(());
        }
        match self
            .reduced
            .event(self.alloc, number, transaction, stay, hash, item)?
        {
            None => Ok(()),
            Some(found) => {
                self.found = Some(found);
                Ok(())
            }
        }
    }

    /// Closes a transaction that ended, unless a cycle was found before. Without memory nothing changes.
    pub(crate) fn leave(&mut self, over: Option<u64>) -> Result<(), AllocError>
        requires { self.old.found ≡ None → MayClose over self.old.reduced.graph }
        ensures ok { OnOk result (HasEnded over self.old self.new) }
        ensures err { OnErr result (IsIdle self.old self.new) }
    {
        if self.found.is_none() {
            self.reduced.leave(over)?;
        }
        Ok(())
    }
}
