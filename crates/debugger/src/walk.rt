//! Walks along the choices.

ghost use Rattle.std.specs.Prelude.{◌≡◌, ◌+◌, ◌<◌, ◌≤◌, length, max, OnOk};
ghost use Rattle.debugger.specs.States.{setting_of};
ghost use Rattle.debugger.specs.Walks.{IsWalk};

use crate::checkpoint::Checkpoint;
use crate::path::Path;
use crate::reach::Reach;
use crate::replay::Replay;
use std::alloc::{AllocError, Global};
use std::mem;
use trace::{Recording, Trace};

/// The maximum number of turns whose items are temporarily in memory twice, because the session already has them.
const MOST_TURNS: usize = 4_096;

/// A replay, with what its session will keep of it.
#[derive(Drop)]
pub(crate) struct Walk<'p> {
    pub(crate) replay: Replay<'p>,
    pub(crate) reach: Reach<'p>,
    /// The items of the choices after those that the session has visited.
    pub(crate) items: Trace,
    pub(crate) alloc: Global,
}

impl<'p> Walk<'p> {
    /// Moves the items out of the walk.
    pub(crate) fn take_items(&mut self) -> Trace
        ensures items { result ≡ self.old.items }
        ensures replay { self.new.replay ≡ self.old.replay }
        ensures reach { self.new.reach ≡ self.old.reach }
    {
        mem::replace(&mut self.items, Trace::new(self.alloc))
    }

    /// Takes turns that the session has visited before.
    fn advance_within(&mut self, choices: &Path<'_>, end: usize) -> Result<(), AllocError>
        requires walk { IsWalk (setting_of self.old.replay.mark.machine) choices.now self.old }
        requires more { self.old.replay.position < end }
        requires within { end ≤ length choices.now }
        requires far { end ≤ self.old.reach.far }
        ensures walk { OnOk result (IsWalk (setting_of self.old.replay.mark.machine) choices.now
            self.new) }
        ensures setting { OnOk result (setting_of self.new.replay.mark.machine
            ≡ setting_of self.old.replay.mark.machine) }
        ensures some { OnOk result (self.old.replay.position < self.new.replay.position) }
        ensures end { OnOk result (self.new.replay.position ≤ end) }
        ensures made { OnOk result (self.new.replay.made + self.old.replay.position
            ≡ self.old.replay.made + self.new.replay.position) }
        ensures reach { self.new.reach ≡ self.old.reach }
    {
        let mut recording = Recording::of(Trace::new(self.alloc));
        let most = (end - self.replay.position).min(MOST_TURNS);
        let end = self.replay.position + most;
        self.replay.advance(choices, end, &mut recording)?;
        Ok(())
    }

    /// Takes turns that the session hasn't visited, at most to the next position of a checkpoint.
    fn advance_beyond(
        &mut self,
        choices: &Path<'_>,
        before: Option<&Checkpoint<'p>>,
        end: usize,
    ) -> Result<(), AllocError>
        requires walk { IsWalk (setting_of self.old.replay.mark.machine) choices.now self.old }
        requires more { self.old.replay.position < end }
        requires within { end ≤ length choices.now }
        requires far { self.old.reach.far ≤ self.old.replay.position }
        ensures walk { OnOk result (IsWalk (setting_of self.old.replay.mark.machine) choices.now
            self.new) }
        ensures setting { OnOk result (setting_of self.new.replay.mark.machine
            ≡ setting_of self.old.replay.mark.machine) }
        ensures some { OnOk result (self.old.replay.position < self.new.replay.position) }
        ensures end { OnOk result (self.new.replay.position ≤ end) }
        ensures made { OnOk result (self.new.replay.made + self.old.replay.position
            ≡ self.old.replay.made + self.new.replay.position) }
        ensures places { OnOk result ((self.new.reach.from ≡ self.old.reach.from)
            × (self.new.reach.base ≡ self.old.reach.base)) }
        ensures most { OnOk result (self.new.reach.most
            ≡ max self.old.reach.most self.new.replay.position) }
    {
        let most = (end - self.replay.position).min(self.reach.distance());
        let end = self.replay.position + most;
        let mut recording = Recording::taken_from(self.alloc, &mut self.items);
        self.replay.advance(choices, end, &mut recording)?;
        recording.give_back(&mut self.items);
        let _ = self.items.len();
        self.reach.extend(choices, before, &self.replay)?;
        Ok(())
    }

    /// Takes turns along the choices: at least one, and none after an end. The first checkpoint shares objects with
    /// `before`.
    pub(crate) fn advance(
        &mut self,
        choices: &Path<'_>,
        before: Option<&Checkpoint<'p>>,
        end: usize,
    ) -> Result<(), AllocError>
        requires walk { IsWalk (setting_of self.old.replay.mark.machine) choices.now self.old }
        requires more { self.old.replay.position < end }
        requires within { end ≤ length choices.now }
        ensures walk { OnOk result (IsWalk (setting_of self.old.replay.mark.machine) choices.now
            self.new) }
        ensures setting { OnOk result (setting_of self.new.replay.mark.machine
            ≡ setting_of self.old.replay.mark.machine) }
        ensures some { OnOk result (self.old.replay.position < self.new.replay.position) }
        ensures end { OnOk result (self.new.replay.position ≤ end) }
        ensures made { OnOk result (self.new.replay.made + self.old.replay.position
            ≡ self.old.replay.made + self.new.replay.position) }
        ensures places { OnOk result ((self.new.reach.from ≡ self.old.reach.from)
            × (self.new.reach.base ≡ self.old.reach.base)) }
        ensures most { OnOk result (self.new.reach.most
            ≡ max self.old.reach.most self.new.replay.position) }
    {
        if self.replay.position < self.reach.far {
            self.advance_within(choices, end.min(self.reach.far))
        } else {
            self.advance_beyond(choices, before, end)
        }
    }
}
