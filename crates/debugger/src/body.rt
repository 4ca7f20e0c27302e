//! The parts of a session, and its moves.

ghost use Rattle.std.specs.Prelude.{◌≡◌, ◌+◌, ◌<◌, ◌≤◌, min, max, length, OnOk, OnErr};
ghost use Rattle.std.specs.Vec.{vec_capacity};
ghost use Rattle.debugger.specs.Sessions.{IsBody, moved_by, debugger_of, session_of};
ghost use Rattle.debugger.specs.Timelines.{BeginsBranch, IsWalkOf, branch_of, setting};
ghost use Rattle.debugger_commands.specs.Sessions.{after_continue, after_continue_back, with_pick};

use crate::breakpoints::Breakpoints;
use crate::timeline::Timeline;
use crate::walk::Walk;
use jvms_machine::machine::ThreadId;
use std::alloc::AllocError;
use trace::Trace;

/// The parts of a session.
#[derive(Drop)]
pub(crate) struct Body<'p> {
    pub(crate) timeline: Timeline<'p>,
    /// The items up to the timeline's `far`.
    pub(crate) trace: Trace,
    pub(crate) breakpoints: Breakpoints,
    /// The number of turns that the last accepted command took.
    pub(crate) replayed: u64,
}

impl<'p> Body<'p> {
    /// Moves to a walk's position, and keeps its items and checkpoints. Without memory nothing changes.
    fn settle(&mut self, walk: &mut Walk<'p>) -> Result<(), AllocError>
        requires body { IsBody self.old }
        requires walk { IsWalkOf self.old.timeline walk.old }
        ensures body { IsBody self.new }
        ensures debugger { OnOk result
            (debugger_of self.new ≡ moved_by (debugger_of self.old) walk.old.replay
            walk.old.reach) }
        ensures kept { OnErr result (debugger_of self.new ≡ debugger_of self.old) }
    {
        self.trace
            .replace_after(self.trace.len(), walk.take_items())?;
        let _ = self.trace.len();
        self.replayed = walk.replay.made;
        self.timeline.arrive(&mut walk.replay, &mut walk.reach);
        Ok(())
    }

    /// Moves to a position. Without memory nothing changes.
    pub(crate) fn go_to(&mut self, place: usize) -> Result<(), AllocError>
        requires body { IsBody self.old }
        requires within { place ≤ length self.old.timeline.choices.items }
        ensures body { IsBody self.new }
        ensures setting { setting self.new.timeline ≡ setting self.old.timeline }
        ensures session { OnOk result (session_of self.new
            ≡ record (session_of self.old) { position = place }) }
        ensures most { OnOk result (self.new.timeline.most ≡ max self.old.timeline.most place) }
        ensures far { OnOk result (self.new.timeline.far ≡ max self.old.timeline.far place) }
        ensures replayed { OnOk result (self.new.replayed + min place self.old.timeline.far
            < place + self.new.timeline.spacing) }
        ensures kept { OnErr result (debugger_of self.new ≡ debugger_of self.old) }
    {
        let mut walk = self.timeline.walk_to(place)?;
        let settled = self.settle(&mut walk);
        drop(walk);
        settled
    }

    /// Moves to the next hit, or to the end if there is none. Without memory nothing changes.
    pub(crate) fn go_to_hit(&mut self) -> Result<(), AllocError>
        requires body { IsBody self.old }
        ensures body { IsBody self.new }
        ensures setting { setting self.new.timeline ≡ setting self.old.timeline }
        ensures session { OnOk result (session_of self.new
            ≡ after_continue (setting self.old.timeline).program (setting self.old.timeline).limits
            (setting self.old.timeline).start (session_of self.old)) }
        ensures most { OnOk result (self.new.timeline.most
            ≡ max self.old.timeline.most self.new.timeline.position) }
        ensures far { OnOk result (self.new.timeline.far
            ≡ max self.old.timeline.far self.new.timeline.position) }
        ensures replayed { OnOk result (self.new.replayed + self.old.timeline.position
            ≤ self.new.timeline.position) }
        ensures kept { OnErr result (debugger_of self.new ≡ debugger_of self.old) }
    {
        let mut walk = self.timeline.walk_to_hit(&self.breakpoints)?;
        let settled = self.settle(&mut walk);
        drop(walk);
        settled
    }

    /// Moves to the nearest hit before the position, or to 0 if there is none. Without memory nothing changes.
    pub(crate) fn go_back_to_hit(&mut self) -> Result<(), AllocError>
        requires body { IsBody self.old }
        ensures body { IsBody self.new }
        ensures setting { setting self.new.timeline ≡ setting self.old.timeline }
        ensures session { OnOk result (session_of self.new ≡ after_continue_back
            (setting self.old.timeline).program (setting self.old.timeline).limits
            (setting self.old.timeline).start (session_of self.old)) }
        ensures most { OnOk result (self.new.timeline.most ≡ self.old.timeline.most) }
        ensures far { OnOk result (self.new.timeline.far ≡ self.old.timeline.far) }
        ensures replayed { OnOk result (self.new.replayed
            < self.old.timeline.position + self.new.timeline.spacing) }
        ensures kept { OnErr result (debugger_of self.new ≡ debugger_of self.old) }
    {
        let hit = self.timeline.hit_before(&self.breakpoints)?;
        self.go_to(hit.position)?;
        self.replayed += hit.made;
        Ok(())
    }

    /// Advances a walk along a branch, and replaces the session's choices by the branch. Without memory nothing
    /// changes.
    fn settle_on_branch(&mut self, t: ThreadId, walk: &mut Walk<'p>) -> Result<(), AllocError>
        requires body { IsBody self.old }
        requires room { self.old.timeline.position < vec_capacity self.old.timeline.choices }
        requires walk { BeginsBranch self.old.timeline (branch_of self.old.timeline t) walk.old }
        ensures body { IsBody self.new }
        ensures setting { setting self.new.timeline ≡ setting self.old.timeline }
        ensures session { OnOk result (session_of self.new ≡ with_pick (session_of self.old) t) }
        ensures most { OnOk result (self.new.timeline.most ≡ max self.old.timeline.most
            (self.old.timeline.position + 1)) }
        ensures far { OnOk result (self.new.timeline.far ≡ self.old.timeline.position + 1) }
        ensures replayed { OnOk result (self.new.replayed ≡ 1) }
        ensures kept { OnErr result (debugger_of self.new ≡ debugger_of self.old) }
    {
        self.timeline.advance_on_branch(walk, t)?;
        self.trace
            .replace_after(self.timeline.here.items, walk.take_items())?;
        let _ = self.trace.len();
        self.replayed = walk.replay.made;
        self.timeline.cut(t);
        self.timeline.arrive(&mut walk.replay, &mut walk.reach);
        Ok(())
    }

    /// Takes a branch, for whose choice memory has been reserved. Without memory nothing changes.
    fn take_branch(&mut self, t: ThreadId) -> Result<(), AllocError>
        requires body { IsBody self.old }
        requires room { self.old.timeline.position < vec_capacity self.old.timeline.choices }
        ensures body { IsBody self.new }
        ensures setting { setting self.new.timeline ≡ setting self.old.timeline }
        ensures session { OnOk result (session_of self.new ≡ with_pick (session_of self.old) t) }
        ensures most { OnOk result (self.new.timeline.most ≡ max self.old.timeline.most
            (self.old.timeline.position + 1)) }
        ensures far { OnOk result (self.new.timeline.far ≡ self.old.timeline.position + 1) }
        ensures replayed { OnOk result (self.new.replayed ≡ 1) }
        ensures kept { OnErr result (debugger_of self.new ≡ debugger_of self.old) }
    {
        let mut walk = self.timeline.begin_branch(t)?;
        let settled = self.settle_on_branch(t, &mut walk);
        drop(walk);
        settled
    }

    /// Reserves the memory for another choice.
    fn reserve_choice(&mut self) -> Result<(), AllocError>
        requires { IsBody self.old }
        ensures body { IsBody self.new }
        ensures debugger { debugger_of self.new ≡ debugger_of self.old }
        ensures room { OnOk result (self.new.timeline.position
            < vec_capacity self.new.timeline.choices) }
    {
        self.timeline.reserve_choice()
    }

    /// Cuts the choices at the position, appends one, and moves after it. Without memory nothing changes.
    pub(crate) fn pick(&mut self, t: ThreadId) -> Result<(), AllocError>
        requires body { IsBody self.old }
        ensures body { IsBody self.new }
        ensures setting { setting self.new.timeline ≡ setting self.old.timeline }
        ensures session { OnOk result (session_of self.new ≡ with_pick (session_of self.old) t) }
        ensures most { OnOk result (self.new.timeline.most ≡ max self.old.timeline.most
            (self.old.timeline.position + 1)) }
        ensures far { OnOk result (self.new.timeline.far ≡ self.old.timeline.position + 1) }
        ensures replayed { OnOk result (self.new.replayed ≡ 1) }
        ensures kept { OnErr result (debugger_of self.new ≡ debugger_of self.old) }
    {
        self.reserve_choice()?;
        self.take_branch(t)
    }
}
