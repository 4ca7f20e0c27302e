//! Takes the turns of choices on a copy of a machine.

ghost use Rattle.std.specs.Prelude.{◌≡◌, ℕ, ◌+◌, ◌^◌, ◌<◌, ◌≤◌, ◌++◌, length, replicate, take};
ghost use Rattle.std.specs.Prelude.{slice_index, IfOk, IsSome, OnOk, Some};
ghost use Rattle.machine.specs.Machine.{with_state};
ghost use Rattle.trace.specs.Recording.{with_items};
ghost use Rattle.debugger.specs.States.{items_at, last_outcome, setting_of};
ghost use Rattle.debugger.specs.Walks.{IsReplay, items_between, turns_of};

use crate::mark::Mark;
use crate::path::Path;
use jvms_machine::machine::{Outcome, ThreadId};
use machine::Machine;
use std::alloc::AllocError;
use trace::Recording;

/// Consecutive turns of a thread.
#[derive(Clone, Copy)]
struct Turns {
    count: u64,
    /// The outcome of the last of them.
    outcome: Outcome,
}

/// Takes consecutive turns of a thread: at least one, and no more than `most`. No other function of
/// the debugger takes turns.
fn take_turns(
    machine: &mut Machine<'_>,
    t: ThreadId,
    most: u64,
    recording: &mut Recording,
) -> Result<Turns, AllocError>
    requires { 0 < most }
    ensures some { IfOk result (λ turns. 0 < turns.count) }
    ensures most { IfOk result (λ turns. turns.count ≤ most) }
    ensures outcome { IfOk result (λ turns. last_outcome
        (turns_of machine.old t turns.count).outcomes ≡ Some turns.outcome) }
    ensures state { IfOk result (λ turns. machine.new ≡ with_state machine.old
        (turns_of machine.old t turns.count).state) }
    ensures items { IfOk result (λ turns. recording.new ≡ with_items recording.old
        (turns_of machine.old t turns.count).items) }
{
    let count = machine.step_consecutive(t, most, recording);
    if count > 0 {
        return Ok(Turns {
            count,
            outcome: Outcome::Ran,
        });
    }
    let outcome = machine.step_recorded(t, recording)?;
    Ok(Turns { count: 1, outcome })
}

/// Returns how many consecutive choices from a position on name the same thread, up to an end.
fn consecutive(choices: &Path<'_>, position: usize, end: usize) -> usize
    requires more { position < end }
    requires within { end ≤ length choices.now }
    ensures some { 0 < result }
    ensures within { position + result ≤ end }
    ensures same { (n : ℕ) → n ≤ result → take (position + n) choices.now
        ≡ take position choices.now ++ replicate n (slice_index choices.now position) }
{
    let t = choices.at(position);
    let mut next = position + 1;
    while next < end && choices.is_at(next, t) {
        next += 1;
    }
    next - position
}

/// A copy of a session's machine that takes turns along the choices.
#[derive(Drop)]
pub(crate) struct Replay<'p> {
    pub(crate) mark: Mark<'p>,
    /// The number of choices before the machine's position.
    pub(crate) position: usize,
    /// The number of turns that were taken.
    pub(crate) made: u64,
}

impl<'p> Replay<'p> {
    /// Takes turns along the choices as long as they name one thread: at least one turn, and none after an end.
    pub(crate) fn advance(
        &mut self,
        choices: &Path<'_>,
        end: usize,
        recording: &mut Recording,
    ) -> Result<(), AllocError>
        requires replay { IsReplay (setting_of self.old.mark.machine) choices.now self.old }
        requires more { self.old.position < end }
        requires within { end ≤ length choices.now }
        requires kept { IsSome recording.old }
        ensures replay { OnOk result (length
            (items_at (setting_of self.old.mark.machine) choices.now self.new.position) < 2 ^ 64
            → IsReplay (setting_of self.old.mark.machine) choices.now self.new) }
        ensures setting { OnOk result (setting_of self.new.mark.machine
            ≡ setting_of self.old.mark.machine) }
        ensures some { OnOk result (self.old.position < self.new.position) }
        ensures end { OnOk result (self.new.position ≤ end) }
        ensures made { OnOk result (self.new.made + self.old.position
            ≡ self.old.made + self.new.position) }
        ensures items { OnOk result (recording.new ≡ with_items recording.old
            (items_between (setting_of self.old.mark.machine) choices.now self.old.position
            self.new.position)) }
    {
        let t = choices.at(self.position);
        let most = consecutive(choices, self.position, end);
        let before = recording.len();
        let turns = take_turns(&mut self.mark.machine, t, most as u64, recording)?;
        self.mark.items = self.mark.items.saturating_add(recording.len() - before);
        self.mark.outcome = Some(turns.outcome);
        self.position += turns.count as usize;
        self.made += turns.count;
        Ok(())
    }
}
