//! Walks to positions.

ghost use Rattle.std.specs.Prelude.{◌≡◌, ◌+◌, ◌*◌, ◌<◌, ◌≤◌, max, min, length, unwrap_or};
ghost use Rattle.std.specs.Prelude.{IfOk, IfSome, OnOk};
ghost use Rattle.debugger.specs.Hits.{hit_after, hits, nearest_before};
ghost use Rattle.debugger.specs.Timelines.{IsTimeline, IsWalkOf, setting};

use crate::breakpoints::Breakpoints;
use crate::timeline::Timeline;
use crate::walk::Walk;
use std::alloc::AllocError;

/// The nearest hit before a position, and the number of turns that were taken to find it.
#[derive(Clone, Copy)]
pub(crate) struct HitBefore {
    pub(crate) position: usize,
    pub(crate) made: u64,
}

/// The last hit among some positions, if there is one, and the number of turns that were taken to find it.
#[derive(Clone, Copy)]
struct LastHit {
    position: Option<usize>,
    made: u64,
}

impl<'p> Timeline<'p> {
    /// Begins a walk to a position, from the nearest saved machine at or before it.
    fn nearest(&self, place: usize) -> Result<Walk<'p>, AllocError>
        requires timeline { IsTimeline self.now }
        ensures walk { IfOk result (λ w. IsWalkOf self.now w) }
        ensures before { IfOk result (λ w. w.replay.position ≤ place) }
        ensures near { IfOk result (λ w. min place self.now.far
            < w.replay.position + self.now.spacing) }
        // A walk forward begins at the session's position or after it.
        ensures forward { IfOk result (λ w. self.now.position ≤ place → self.now.position
            ≤ w.replay.position) }
        ensures made { IfOk result (λ w. w.replay.made ≡ 0) }
        ensures most { IfOk result (λ w. w.reach.most ≡ self.now.most) }
    {
        let number = place.min(self.far) / self.spacing;
        if number * self.spacing <= self.position && self.position <= place {
            return self.start_here();
        }
        self.start_at_checkpoint(number)
    }

    /// Continues a walk to a position.
    fn continue_to(&self, walk: &mut Walk<'p>, place: usize) -> Result<(), AllocError>
        requires walk { IsWalkOf self.now walk.old }
        requires forward { walk.old.replay.position ≤ place }
        requires within { place ≤ length self.now.choices.items }
        ensures walk { OnOk result (IsWalkOf self.now walk.new) }
        ensures position { OnOk result (walk.new.replay.position ≡ place) }
        ensures most { OnOk result (walk.new.reach.most ≡ max walk.old.reach.most place) }
        ensures made { OnOk result (walk.new.replay.made + walk.old.replay.position
            ≡ walk.old.replay.made + place) }
    {
        self.aim(walk, place);
        while walk.replay.position < place {
            self.advance(walk, place)?;
        }
        Ok(())
    }

    /// Walks to a position.
    pub(crate) fn walk_to(&self, place: usize) -> Result<Walk<'p>, AllocError>
        requires timeline { IsTimeline self.now }
        requires within { place ≤ length self.now.choices.items }
        ensures walk { IfOk result (λ w. IsWalkOf self.now w) }
        ensures position { IfOk result (λ w. w.replay.position ≡ place) }
        ensures most { IfOk result (λ w. w.reach.most ≡ max self.now.most place) }
        ensures made { IfOk result (λ w. w.replay.made + min place self.now.far
            < place + self.now.spacing) }
        ensures forward { IfOk result (λ w. self.now.position ≤ place
            → w.replay.made + self.now.position ≤ place) }
    {
        let mut walk = self.nearest(place)?;
        match self.continue_to(&mut walk, place) {
            Ok(()) => Ok(walk),
            Err(error) => {
                drop(walk);
                Err(error)
            }
        }
    }

    /// Continues a walk from the position to the next hit, or to the end if there is none.
    fn continue_to_hit(
        &self,
        walk: &mut Walk<'p>,
        breakpoints: &Breakpoints,
    ) -> Result<(), AllocError>
        requires timeline { IsTimeline self.now }
        requires walk { IsWalkOf self.now walk.old }
        requires position { walk.old.replay.position ≡ self.now.position }
        requires made { walk.old.replay.made ≡ 0 }
        requires most { walk.old.reach.most ≡ self.now.most }
        ensures walk { OnOk result (IsWalkOf self.now walk.new) }
        ensures position { OnOk result (walk.new.replay.position
            ≡ hit_after (setting self.now) self.now.choices.items breakpoints.now.items
            self.now.position) }
        ensures most { OnOk result (walk.new.reach.most
            ≡ max self.now.most walk.new.replay.position) }
        ensures made { OnOk result (walk.new.replay.made + self.now.position
            ≤ walk.new.replay.position) }
    {
        for position in self.position..self.choices.len() {
            self.advance(walk, position + 1)?;
            if self.is_hit(&walk.replay, breakpoints) {
                return Ok(());
            }
        }
        Ok(())
    }

    /// Walks to the next hit, or to the end if there is none.
    fn walk_by_turns(&self, breakpoints: &Breakpoints) -> Result<Walk<'p>, AllocError>
        requires timeline { IsTimeline self.now }
        ensures walk { IfOk result (λ w. IsWalkOf self.now w) }
        ensures position { IfOk result (λ w. w.replay.position
            ≡ hit_after (setting self.now) self.now.choices.items breakpoints.now.items
            self.now.position) }
        ensures most { IfOk result (λ w. w.reach.most
            ≡ max self.now.most w.replay.position) }
        ensures made { IfOk result (λ w. w.replay.made + self.now.position ≤ w.replay.position) }
    {
        let mut walk = self.start_here()?;
        match self.continue_to_hit(&mut walk, breakpoints) {
            Ok(()) => Ok(walk),
            Err(error) => {
                drop(walk);
                Err(error)
            }
        }
    }

    /// Walks to the next hit, or to the end if there is none. Without a breakpoint it tests no position.
    pub(crate) fn walk_to_hit(&self, breakpoints: &Breakpoints) -> Result<Walk<'p>, AllocError>
        requires timeline { IsTimeline self.now }
        ensures walk { IfOk result (λ w. IsWalkOf self.now w) }
        ensures position { IfOk result (λ w. w.replay.position
            ≡ hit_after (setting self.now) self.now.choices.items breakpoints.now.items
            self.now.position) }
        ensures most { IfOk result (λ w. w.reach.most
            ≡ max self.now.most w.replay.position) }
        ensures made { IfOk result (λ w. w.replay.made + self.now.position ≤ w.replay.position) }
    {
        if breakpoints.is_empty() {
            let walk = self.walk_to(self.choices.len())?;
            return Ok(walk);
        }
        self.walk_by_turns(breakpoints)
    }

    /// Finds the last hit between a walk's position and an end, if there is one. Continues the walk to the end.
    fn last_hit_along(
        &self,
        walk: &mut Walk<'p>,
        breakpoints: &Breakpoints,
        start: usize,
        end: usize,
    ) -> Result<LastHit, AllocError>
        requires timeline { IsTimeline self.now }
        requires within { end ≤ self.now.position }
        requires start { start < end }
        requires walk { IsWalkOf self.now walk.old }
        requires position { walk.old.replay.position ≡ start }
        requires made { walk.old.replay.made ≡ 0 }
        ensures hit { IfOk result
            (λ h. nearest_before (setting self.now) self.now.choices.items breakpoints.now.items end
            ≡ unwrap_or h.position (nearest_before
            (setting self.now) self.now.choices.items breakpoints.now.items start)) }
        ensures within { IfOk result (λ h. IfSome h.position (λ p. p < end)) }
        ensures made { IfOk result (λ h. h.made + start ≡ end) }
    {
        let mut hit = None;
        for position in start..end {
            if self.is_hit(&walk.replay, breakpoints) {
                hit = Some(position);
            }
            self.advance(walk, position + 1)?;
        }
        Ok(LastHit {
            position: hit,
            made: walk.replay.made,
        })
    }

    /// Finds the last hit between checkpoint `number` and an end, if there is one.
    fn last_hit(
        &self,
        breakpoints: &Breakpoints,
        number: usize,
        end: usize,
    ) -> Result<LastHit, AllocError>
        requires timeline { IsTimeline self.now }
        requires within { end ≤ self.now.position }
        requires start { number * self.now.spacing < end }
        ensures hit { IfOk result (λ h. nearest_before (setting self.now) self.now.choices.items
            breakpoints.now.items end ≡ unwrap_or h.position
            (nearest_before (setting self.now) self.now.choices.items breakpoints.now.items
            (number * self.now.spacing))) }
        ensures within { IfOk result (λ h. IfSome h.position (λ p. p < end)) }
        ensures made { IfOk result (λ h. h.made + number * self.now.spacing ≡ end) }
    {
        let start = number * self.spacing;
        let mut walk = self.start_at_checkpoint(number)?;
        let hit = self.last_hit_along(&mut walk, breakpoints, start, end);
        drop(walk);
        hit
    }

    /// Finds the nearest hit before the position, or 0 if there is none. It searches the stretches between checkpoints,
    /// from the last one back to the first.
    pub(crate) fn hit_before(&self, breakpoints: &Breakpoints) -> Result<HitBefore, AllocError>
        requires timeline { IsTimeline self.now }
        ensures position { IfOk result (λ h. h.position ≡ nearest_before
            (setting self.now) self.now.choices.items breakpoints.now.items self.now.position) }
        ensures within { IfOk result (λ h. h.position ≤ self.now.position) }
        ensures made { IfOk result (λ h. h.made ≤ self.now.position) }
    {
        let mut found = HitBefore {
            position: 0,
            made: 0,
        };
        if breakpoints.is_empty() {
            return Ok(found);
        }
        let mut end = self.position;
        while end > 0 {
            let number = (end - 1) / self.spacing;
            let last = self.last_hit(breakpoints, number, end)?;
            found.made += last.made;
            if let Some(position) = last.position {
                found.position = position;
                return Ok(found);
            }
            end = number * self.spacing;
        }
        Ok(found)
    }
}
