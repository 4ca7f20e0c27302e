//! A list of outcomes.

ghost use Rattle.std.specs.Prelude.{◌≡◌, ◌++◌, ◌∷◌, [], length, replicate, ◌==◌, OnOk, OnErr, IfOk};

use crate::kind::Kind;
use crate::names::Names;
use jvms_machine::machine::Outcome;
use shared_data::items::Items;
use std::alloc::{AllocError, Global};
use std::marker::Model;

/// A list of outcomes, which contracts see as the list itself. An outcome without names takes one byte. One blocked on
/// a monitor takes 9 bytes, on an initialisation 13, and on a join or a wait 5.
#[derive(Debug, Drop)]
pub struct OutcomeList {
    kinds: Vec<Kind>,
    names: Names,
}

impl Model for OutcomeList {
    ghost use Rattle.std.specs.Prelude.{List};
    ghost use Rattle.jvms_machine.specs.declared.machine.Outcome.{Outcome as SeenOutcome};

    ghost Value = { List SeenOutcome };

    ghost use Rattle.outcome_list.specs.Stored.{Fit, outcomes_by};

    ghost view = { λ l. outcomes_by l.kinds.items l.names };

    ghost invariant = { λ l. Fit l.kinds.items l.names };
}

/// Appends the kind `Ran` a number of times.
#[tactic(auto, using(crate::proofs::Lists::once_more))]
fn put_ran(kinds: &mut Vec<Kind>, times: usize) -> Result<(), AllocError>
    ensures ok { OnOk result (kinds.new.items ≡ kinds.old.items ++ replicate times Kind.Ran) }
    ensures err { OnErr result (kinds.new.items ≡ kinds.old.items) }
{
    kinds.reserve(times)?;
    for _ in 0..times {
        kinds.push_reserved(Kind::Ran);
    }
    Ok(())
}

impl OutcomeList {
    /// Returns a list without outcomes.
    pub fn new(alloc: Global) -> OutcomeList
        ensures { result ≡ [] }
    {
        OutcomeList {
            kinds: Vec::new(alloc),
            names: Names::new(alloc),
        }
    }

    /// Returns the number of outcomes.
    #[tactic(auto, using(crate::proofs::Lists::as_many))]
    pub fn len(&self) -> usize
        ensures { result ≡ length self.now }
    {
        self.kinds.len()
    }

    /// Decides whether there are no outcomes.
    #[tactic(auto, using(crate::proofs::Lists::as_many))]
    pub fn is_empty(&self) -> bool
        ensures { result ≡ (length self.now == 0) }
    {
        self.kinds.is_empty()
    }

    /// Appends an outcome. If there is no memory, nothing changes.
    pub fn push(&mut self, outcome: Outcome) -> Result<(), AllocError>
        ensures ok { OnOk result (self.new ≡ self.old ++ outcome ∷ []) }
        ensures err { OnErr result (self.new ≡ self.old) }
    {
        self.kinds.reserve(1)?;
        self.names.push(outcome)?;
        self.kinds.push_reserved(Kind::of(outcome));
        Ok(())
    }

    /// Appends the outcome `Ran` a number of times. If there is no memory, nothing changes.
    pub fn push_ran(&mut self, times: usize) -> Result<(), AllocError>
        ensures ok { OnOk result (self.new ≡ self.old ++ replicate times Outcome.Ran) }
        ensures err { OnErr result (self.new ≡ self.old) }
    {
        put_ran(&mut self.kinds, times)?;
        Ok(())
    }

    /// Returns the outcomes in order.
    pub fn outcomes(&self, alloc: Global) -> Result<Items<Outcome>, AllocError>
        ensures { IfOk result (λ outcomes. outcomes ≡ self.now) }
    {
        let mut names = self.names.all();
        let mut outcomes = Items::new(alloc);
        for kind in &self.kinds {
            outcomes.push(names.next_outcome(*kind))?;
        }
        Ok(outcomes)
    }
}
