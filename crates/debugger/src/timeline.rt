//! The choices of a session with the machine at its position and the checkpoints.

ghost use Rattle.std.specs.Prelude.{◌≡◌, ◌+◌, ◌*◌, ◌/◌, ◌^◌, ◌<◌, ◌≤◌, length, max, IfOk, OnOk};
ghost use Rattle.debugger.specs.Marks.{mark_at, IsSpacing};
ghost use Rattle.debugger.specs.States.{items_at, setting_of};
ghost use Rattle.debugger.specs.Timelines.{IsAlong, IsTimeline, IsWalkOf, extent, extent_after_move, setting};
ghost use Rattle.debugger.specs.Walks.{IsWalk};

use crate::checkpoint::{Checkpoint, thin};
use crate::mark::Mark;
use crate::path::Path;
use crate::reach::Reach;
use crate::replay::Replay;
use crate::walk::Walk;
use jvms_machine::machine::ThreadId;
use std::alloc::{AllocError, Global};
use std::mem;
use trace::Trace;

/// The choices of a session with the machine at its position and the checkpoints.
#[derive(Drop)]
pub(crate) struct Timeline<'p> {
    pub(crate) alloc: Global,
    pub(crate) choices: Vec<ThreadId>,
    pub(crate) position: usize,
    /// The machine at the position.
    pub(crate) here: Mark<'p>,
    /// The greatest position so far.
    pub(crate) most: usize,
    /// The greatest position since the choices were last cut.
    pub(crate) far: usize,
    /// The distance between checkpoints.
    pub(crate) spacing: usize,
    /// The machine at each multiple of the spacing up to `far`.
    pub(crate) checkpoints: Vec<Checkpoint<'p>>,
}

impl<'p> Timeline<'p> {
    /// Returns the choices to walk along.
    fn path(&self) -> Path<'_>
        ensures { result ≡ self.now.choices.items }
    {
        Path {
            before: self.choices.as_slice(),
            after: &[],
        }
    }

    /// Begins a walk along some choices, at a mark whose position is at most `far`.
    pub(crate) fn begin(
        &self,
        choices: &Path<'_>,
        mark: Mark<'p>,
        position: usize,
        far: usize,
    ) -> Walk<'p>
        requires position { position ≤ far }
        requires far { far ≤ length choices.now }
        requires most { far ≤ self.now.most }
        requires spacing { IsSpacing self.now.most self.now.spacing }
        requires few { length (items_at (setting self.now) choices.now far) < 2 ^ 63 }
        requires mark { mark ≡ mark_at (setting self.now) choices.now position }
        ensures walk { IsWalk (setting self.now) choices.now result }
        ensures setting { setting_of result.replay.mark.machine ≡ setting self.now }
        ensures position { result.replay.position ≡ position }
        ensures made { result.replay.made ≡ 0 }
        ensures places { (result.reach.from ≡ far) × (result.reach.base ≡ self.now.spacing)
            × (result.reach.most ≡ self.now.most) }
    {
        let _ = choices;
        Walk {
            replay: Replay {
                mark,
                position,
                made: 0,
            },
            reach: Reach {
                from: far,
                base: self.spacing,
                far,
                most: self.most,
                spacing: self.spacing,
                ratio: 1,
                fresh: Vec::new(self.alloc),
            },
            items: Trace::new(self.alloc),
            alloc: self.alloc,
        }
    }

    /// Begins a walk along the timeline's own choices, at the mark of a position that the session has visited.
    fn start(&self, mark: Mark<'p>, position: usize) -> Walk<'p>
        requires timeline { IsTimeline self.now }
        requires within { position ≤ self.now.far }
        requires mark { mark ≡ mark_at (setting self.now) self.now.choices.items position }
        ensures walk { IsWalkOf self.now result }
        ensures position { result.replay.position ≡ position }
        ensures made { result.replay.made ≡ 0 }
        ensures most { result.reach.most ≡ self.now.most }
    {
        self.begin(&self.path(), mark, position, self.far)
    }

    /// Begins a walk at the position.
    pub(crate) fn start_here(&self) -> Result<Walk<'p>, AllocError>
        requires timeline { IsTimeline self.now }
        ensures walk { IfOk result (λ w. IsWalkOf self.now w) }
        ensures position { IfOk result (λ w. w.replay.position ≡ self.now.position) }
        ensures made { IfOk result (λ w. w.replay.made ≡ 0) }
        ensures most { IfOk result (λ w. w.reach.most ≡ self.now.most) }
    {
        let mark = self.here.copy()?;
        Ok(self.start(mark, self.position))
    }

    /// Begins a walk at checkpoint `number`.
    pub(crate) fn start_at_checkpoint(&self, number: usize) -> Result<Walk<'p>, AllocError>
        requires timeline { IsTimeline self.now }
        requires within { number ≤ self.now.far / self.now.spacing }
        ensures walk { IfOk result (λ w. IsWalkOf self.now w) }
        ensures position { IfOk result (λ w. w.replay.position ≡ number * self.now.spacing) }
        ensures made { IfOk result (λ w. w.replay.made ≡ 0) }
        ensures most { IfOk result (λ w. w.reach.most ≡ self.now.most) }
    {
        let mark = self.checkpoints[number].restore()?;
        Ok(self.start(mark, number * self.spacing))
    }

    /// Sets the spacing of checkpoints for the target of a walk.
    pub(crate) fn aim(&self, walk: &mut Walk<'p>, place: usize)
        requires walk { IsWalkOf self.now walk.old }
        requires within { place ≤ length self.now.choices.items }
        ensures walk { IsWalkOf self.now walk.new }
        ensures replay { walk.new.replay ≡ walk.old.replay }
        ensures most { walk.new.reach.most ≡ max walk.old.reach.most place }
    {
        walk.reach.aim(&self.path(), &walk.replay.mark, place);
    }

    /// Continues a walk by at least one turn, at most to an end.
    pub(crate) fn advance(&self, walk: &mut Walk<'p>, end: usize) -> Result<(), AllocError>
        requires walk { IsWalkOf self.now walk.old }
        requires more { walk.old.replay.position < end }
        requires within { end ≤ length self.now.choices.items }
        ensures walk { OnOk result (IsWalkOf self.now walk.new) }
        ensures some { OnOk result (walk.old.replay.position < walk.new.replay.position) }
        ensures end { OnOk result (walk.new.replay.position ≤ end) }
        ensures made { OnOk result (walk.new.replay.made + walk.old.replay.position
            ≡ walk.old.replay.made + walk.new.replay.position) }
        ensures most { OnOk result (walk.new.reach.most
            ≡ max walk.old.reach.most walk.new.replay.position) }
    {
        walk.advance(&self.path(), self.checkpoints.last(), end)?;
        Ok(())
    }

    /// Moves to a replay's position, and moves its machine and its new checkpoints into the timeline.
    pub(crate) fn arrive(&mut self, replay: &mut Replay<'p>, reach: &mut Reach<'p>)
        requires timeline { IsTimeline self.old }
        requires along { IsAlong self.old replay.old reach.old }
        requires few { length (items_at (setting self.old) self.old.choices.items reach.old.far)
            < 2 ^ 63 }
        ensures timeline { IsTimeline self.new }
        ensures extent { extent self.new
            ≡ extent_after_move (extent self.old) replay.old reach.old }
    {
        thin(&mut self.checkpoints, 0, reach.ratio);
        let kept = self.checkpoints.append(&mut reach.fresh).is_ok();
        prove!(kept);
        mem::swap(&mut self.here, &mut replay.mark);
        self.position = replay.position;
        self.most = reach.most;
        self.far = reach.far;
        self.spacing = reach.spacing;
    }
}
