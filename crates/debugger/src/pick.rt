//! Replaces the choices after the position by another choice.

ghost use Rattle.std.specs.Prelude.{◌≡◌, ◌+◌, ◌<◌, ◌++◌, max, take};
ghost use Rattle.std.specs.Prelude.{IfOk, OnOk};
ghost use Rattle.std.specs.Vec.{vec_capacity};
ghost use Rattle.debugger.specs.States.{setting_of};
ghost use Rattle.debugger.specs.Timelines.{BeginsBranch, IsTimeline, branch_of, extent, setting};
ghost use Rattle.debugger.specs.Walks.{IsWalk};

use crate::path::Path;
use crate::timeline::Timeline;
use crate::walk::Walk;
use jvms_machine::machine::ThreadId;
use std::alloc::AllocError;

impl<'p> Timeline<'p> {
    /// Reserves the memory for another choice.
    pub(crate) fn reserve_choice(&mut self) -> Result<(), AllocError>
        requires { IsTimeline self.old }
        ensures timeline { IsTimeline self.new }
        ensures extent { extent self.new ≡ extent self.old }
        ensures room { OnOk result (self.new.position < vec_capacity self.new.choices) }
    {
        self.choices.reserve(1)
    }

    /// Returns the choices before the position, followed by others.
    fn branch<'a>(&'a self, others: &'a [ThreadId]) -> Path<'a>
        requires { IsTimeline self.now }
        ensures { result ≡ take self.now.position self.now.choices.items ++ others.now }
    {
        Path {
            before: &self.choices[..self.position],
            after: others,
        }
    }

    /// Begins a walk at the position, along a branch.
    pub(crate) fn begin_branch(&self, t: ThreadId) -> Result<Walk<'p>, AllocError>
        requires { IsTimeline self.now }
        ensures { IfOk result (λ w. BeginsBranch self.now (branch_of self.now t) w) }
    {
        let choice = [t];
        let mark = self.here.copy()?;
        Ok(self.begin(&self.branch(&choice), mark, self.position, self.position))
    }

    /// Takes the turn after the position, along a branch.
    pub(crate) fn advance_on_branch(
        &self,
        walk: &mut Walk<'p>,
        t: ThreadId,
    ) -> Result<(), AllocError>
        requires timeline { IsTimeline self.now }
        requires walk { BeginsBranch self.now (branch_of self.now t) walk.old }
        ensures walk { OnOk result (IsWalk (setting self.now) (branch_of self.now t) walk.new) }
        ensures setting { OnOk result (setting_of walk.new.replay.mark.machine ≡ setting self.now) }
        ensures position { OnOk result (walk.new.replay.position ≡ self.now.position + 1) }
        ensures made { OnOk result (walk.new.replay.made ≡ 1) }
        ensures places { OnOk result ((walk.new.reach.from ≡ self.now.position)
            × (walk.new.reach.base ≡ self.now.spacing)) }
        ensures most { OnOk result (walk.new.reach.most
            ≡ max self.now.most (self.now.position + 1)) }
    {
        let choice = [t];
        let before = self.checkpoints.get(self.position / self.spacing);
        walk.advance(&self.branch(&choice), before, self.position + 1)?;
        Ok(())
    }

    /// Replaces the choices after the position by another one. Drops the checkpoints after the position.
    pub(crate) fn cut(&mut self, t: ThreadId)
        requires timeline { IsTimeline self.old }
        requires room { self.old.position < vec_capacity self.old.choices }
        ensures timeline { IsTimeline self.new }
        ensures extent { extent self.new ≡ record (extent self.old) {
          choices = branch_of self.old t;
          far = self.old.position;
        } }
    {
        self.choices.truncate(self.position);
        self.choices.push_reserved(t);
        self.checkpoints.truncate(self.position / self.spacing + 1);
        self.far = self.position;
    }
}
