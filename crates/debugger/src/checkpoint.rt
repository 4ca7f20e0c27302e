//! Checkpoints: saved marks. Consecutive ones share the objects that didn't change.

ghost use Rattle.std.specs.Prelude.{◌≡◌, ℕ, ◌+◌, ◌*◌, ◌^◌, ◌<◌, ◌≤◌, ◌++◌, ◌∷◌, [], length};
ghost use Rattle.std.specs.Prelude.{slice_index_or, IfOk, OnOk};
ghost use Rattle.std.specs.Vec.{vec_capacity};
ghost use Rattle.debugger.specs.declared.mark.Mark.{Mark as Seen};

use crate::mark::Mark;
use jvms_machine::machine::Outcome;
use machine::SavedMachine;
use std::alloc::AllocError;
use std::marker::Model;

/// A saved mark. Contracts see the mark itself.
#[derive(Drop)]
pub(crate) struct Checkpoint<'p> {
    machine: SavedMachine<'p>,
    items: usize,
    outcome: Option<Outcome>,
}

impl<'p> Model for Checkpoint<'p> {
    ghost use Rattle.debugger.specs.declared.mark.Mark.{Mark as Seen};

    ghost Value = { Seen };

    ghost view = { λ c. record { machine = c.machine; items = c.items; outcome = c.outcome } };
}

impl<'p> Checkpoint<'p> {
    /// Saves a mark. The checkpoint shares objects with the one before it.
    fn save(mark: &Mark<'p>, before: Option<&Checkpoint<'p>>) -> Result<Checkpoint<'p>, AllocError>
        ensures { IfOk result (λ c. c ≡ mark.now) }
    {
        Ok(Checkpoint {
            machine: mark.machine.save(before.map(|c| &c.machine))?,
            items: mark.items,
            outcome: mark.outcome,
        })
    }

    /// Restores the mark.
    pub(crate) fn restore(&self) -> Result<Mark<'p>, AllocError>
        ensures { IfOk result (λ m. m ≡ self.now) }
    {
        Ok(Mark {
            machine: self.machine.restore()?,
            items: self.items,
            outcome: self.outcome,
        })
    }
}

/// Appends a saved mark to these checkpoints. It shares objects with the last one before it, or with `before` if there
/// is none.
pub(crate) fn push_saved<'p>(
    checkpoints: &mut Vec<Checkpoint<'p>>,
    mark: &Mark<'p>,
    before: Option<&Checkpoint<'p>>,
) -> Result<(), AllocError>
    ensures marks { OnOk result (checkpoints.new.items ≡ checkpoints.old.items ++ mark.now ∷ []) }
    ensures room { OnOk result (vec_capacity checkpoints.old ≤ vec_capacity checkpoints.new) }
{
    let saved = Checkpoint::save(mark, checkpoints.last().or(before))?;
    checkpoints.push(saved)?;
    Ok(())
}

/// Keeps the checkpoint at index `first` and every `ratio`-th one after it, and drops the others.
pub(crate) fn thin(checkpoints: &mut Vec<Checkpoint<'_>>, first: usize, ratio: usize)
    requires positive { 0 < ratio }
    requires small { ratio < 2 ^ 63 }
    ensures each { (j : ℕ) (x : Seen) → j < length checkpoints.new.items
        → slice_index_or checkpoints.new.items j x
        ≡ slice_index_or checkpoints.old.items (first + j * ratio) x }
    ensures kept { (j : ℕ) → j < length checkpoints.new.items
        → first + j * ratio < length checkpoints.old.items }
    ensures all { (j : ℕ) → first + j * ratio < length checkpoints.old.items
        → j < length checkpoints.new.items }
    ensures room { vec_capacity checkpoints.new ≡ vec_capacity checkpoints.old }
{
    let mut kept = 0;
    let mut next = first;
    while next < checkpoints.len() {
        checkpoints.swap(kept, next);
        kept += 1;
        next += ratio;
    }
    checkpoints.truncate(kept);
}
