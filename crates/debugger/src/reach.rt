//! The positions after those that a session has visited.

ghost use Rattle.std.specs.Prelude.{◌≡◌, ℕ, ◌+◌, ◌-◌, ◌*◌, ◌/◌, ◌%◌, ◌^◌, ◌<◌, ◌≤◌, max, length};
ghost use Rattle.std.specs.Prelude.{OnOk};
ghost use Rattle.debugger.specs.declared.mark.Mark.{Mark as Seen};
ghost use Rattle.debugger.specs.Marks.{mark_at, AreMarks};
ghost use Rattle.debugger.specs.States.{setting_of};
ghost use Rattle.debugger.specs.Walks.{IsReach};

use crate::checkpoint::{Checkpoint, push_saved, thin};
use crate::mark::Mark;
use crate::path::Path;
use crate::replay::Replay;
use std::alloc::AllocError;

/// The checkpoints that a walk keeps of the positions after those that its session has visited.
#[derive(Drop)]
pub(crate) struct Reach<'p> {
    /// The session's greatest position since its choices were last cut.
    pub(crate) from: usize,
    /// The spacing of the session's checkpoints.
    pub(crate) base: usize,
    /// The greatest position of the session and the walk since the choices were last cut.
    pub(crate) far: usize,
    /// The greatest position that the session or the walk ever had.
    pub(crate) most: usize,
    /// The spacing of checkpoints for `most`.
    pub(crate) spacing: usize,
    /// The factor between this spacing and the session's.
    pub(crate) ratio: usize,
    /// The checkpoints after `from`.
    pub(crate) fresh: Vec<Checkpoint<'p>>,
}

impl<'p> Reach<'p> {
    /// Returns the distance to the next position of a checkpoint.
    pub(crate) fn distance(&self) -> usize
        requires { 0 < self.now.spacing }
        ensures some { 0 < result }
        ensures distance { result ≡ self.now.spacing - self.now.far % self.now.spacing }
    {
        self.spacing - self.far % self.spacing
    }

    /// Doubles the spacing, and drops the checkpoints that aren't at multiples of it.
    fn widen(&mut self)
        requires positive { 0 < self.old.spacing }
        requires small { self.old.spacing < 2 ^ 62 }
        requires ratio { self.old.ratio ≤ self.old.spacing }
        requires from { self.old.from ≤ self.old.far }
        requires far { self.old.far < 2 ^ 64 - 1 }
        ensures fresh { (at : ℕ → Seen) → AreMarks at self.old.spacing
            (self.old.from / self.old.spacing + 1) self.old.far self.old.fresh.items
            → AreMarks at self.new.spacing (self.new.from / self.new.spacing + 1) self.new.far
            self.new.fresh.items }
        ensures spacing { self.new.spacing ≡ 2 * self.old.spacing }
        ensures ratio { self.new.ratio ≡ 2 * self.old.ratio }
        ensures places { (self.new.from ≡ self.old.from) × (self.new.far ≡ self.old.far)
            × (self.new.most ≡ self.old.most) × (self.new.base ≡ self.old.base) }
    {
        let first = (self.from / self.spacing + 1) % 2;
        thin(&mut self.fresh, first, 2);
        self.spacing = 2 * self.spacing;
        self.ratio = 2 * self.ratio;
    }

    /// Records a greater position. Doubles the spacing if it is too small for the position.
    fn grow(&mut self, choices: &Path<'_>, mark: &Mark<'p>, far: usize)
        requires reach { IsReach (setting_of mark.now.machine) choices.now self.old }
        requires more { self.old.far < far }
        requires within { far ≤ length choices.now }
        requires near { far ≤ self.old.far + (self.old.spacing - self.old.far % self.old.spacing) }
        ensures reach { IsReach (setting_of mark.now.machine) choices.now self.new }
        ensures near { far ≤ self.new.far + (self.new.spacing - self.new.far % self.new.spacing) }
        ensures places { (self.new.from ≡ self.old.from) × (self.new.far ≡ self.old.far)
            × (self.new.most ≡ max self.old.most far) × (self.new.base ≡ self.old.base) }
    {
        if far > self.most {
            self.most = far;
            if far / 64 >= self.spacing {
                self.widen();
            }
        }
    }

    /// Sets the spacing for the target of a walk, before the walk keeps a checkpoint.
    pub(crate) fn aim(&mut self, choices: &Path<'_>, mark: &Mark<'p>, place: usize)
        requires reach { IsReach (setting_of mark.now.machine) choices.now self.old }
        requires within { place ≤ length choices.now }
        ensures reach { IsReach (setting_of mark.now.machine) choices.now self.new }
        ensures places { (self.new.from ≡ self.old.from) × (self.new.far ≡ self.old.far)
            × (self.new.most ≡ max self.old.most place) × (self.new.base ≡ self.old.base) }
    {
        if place > self.most {
            self.most = place;
            while self.spacing <= place / 64 {
                self.widen();
            }
        }
    }

    /// Extends to a position, at most to the next one of a checkpoint. The first checkpoint shares objects with
    /// `before`.
    pub(crate) fn extend(
        &mut self,
        choices: &Path<'_>,
        before: Option<&Checkpoint<'p>>,
        replay: &Replay<'p>,
    ) -> Result<(), AllocError>
        requires reach { IsReach (setting_of replay.now.mark.machine) choices.now self.old }
        requires more { self.old.far < replay.now.position }
        requires within { replay.now.position ≤ length choices.now }
        requires near { replay.now.position
            ≤ self.old.far + (self.old.spacing - self.old.far % self.old.spacing) }
        requires mark { replay.now.mark ≡ mark_at (setting_of replay.now.mark.machine) choices.now
            replay.now.position }
        ensures reach { OnOk result (IsReach (setting_of replay.now.mark.machine) choices.now
            self.new) }
        ensures places { OnOk result ((self.new.from ≡ self.old.from)
            × (self.new.far ≡ replay.now.position)
            × (self.new.most ≡ max self.old.most replay.now.position)
            × (self.new.base ≡ self.old.base)) }
    {
        self.grow(choices, &replay.mark, replay.position);
        self.far = replay.position;
        if self.far % self.spacing == 0 {
            push_saved(&mut self.fresh, &replay.mark, before)?;
        }
        Ok(())
    }
}
