//! The next turns of a run.

ghost use Rattle.std.specs.Prelude.{◌≡◌, ◌≤◌, ◌&&◌, true, length, IfOk, IsTrue, OnErr, OnOk};
ghost use Rattle.jvms_machine.specs.Status.{is_enabled};
ghost use Rattle.runs.specs.Choices.{AreConsecutiveTurns, IsNextTurn, IsTurn, IsUnchanged, IsUntaken};
ghost use Rattle.runs.specs.Kept.{IsKept};
ghost use Rattle.schedule.specs.Choosers.{is_seeded};
ghost use Rattle.schedule.specs.Enabled.{is_enabled_in};

use crate::kept::Kept;
use machine::{Machine, Outcome, ThreadId, Turn, is_enabled};
use schedule::{Candidate, Chooser};
use std::alloc::AllocError;
use trace::Recording;

/// The most predicted threads that are tried before the machine's threads are inspected.
const MOST_TRIES: u32 = 64;

/// A choice, and the outcome of its turn.
pub(crate) type Taken = (ThreadId, Outcome);

/// A number of consecutive turns of one thread.
#[derive(Clone, Copy)]
pub(crate) struct TurnsOn {
    /// The thread.
    pub thread: ThreadId,
    /// The number of turns.
    pub times: u64,
}

/// Takes consecutive turns of the thread that the chooser predicts, at most `most` of them, and returns their
/// number. Each has the outcome `Ran`. Takes none if the chooser predicts no thread, or one for a single turn.
///
/// Fast path of a run: consults the chooser once for all of these turns.
#[inline(always)]
#[tactic(auto, using(crate::proofs::KeptThreads::nothing_kept))]
pub(crate) fn take_consecutive_turns(
    machine: &mut Machine<'_>,
    chooser: &mut Chooser,
    kept: &mut Kept,
    most: u64,
    recording: &mut Recording,
) -> TurnsOn
    requires { IsKept machine.old kept.old }
    ensures most { result.times ≤ most }
    ensures taken { AreConsecutiveTurns machine.old chooser.old recording.old
        result.thread result.times machine.new chooser.new recording.new }
    ensures enabled { IsKept machine.new kept.new }
{
    let Some(Candidate { thread, turns }) = chooser.candidate(machine) else {
        return TurnsOn {
            thread: 0,
            times: 0,
        };
    };
    if turns == 1 {
        return TurnsOn { thread, times: 0 };
    }
    kept.forget();
    let times = machine.step_consecutive(thread, most.min(turns), recording);
    chooser.count(thread, times);
    TurnsOn { thread, times }
}

/// Takes one turn of the next thread, which the chooser predicts beside idle threads, and returns the thread and the
/// outcome. A predicted thread that isn't enabled is marked as idle, and the next prediction is tried, `MOST_TRIES` times
/// at most. Returns `None`, with machine, chooser and items unchanged, if no predicted thread is enabled.
///
/// Decides that turn once, and inspects no thread that is marked. On an error, the machine and the items are unchanged.
fn take_candidate(
    machine: &mut Machine<'_>,
    chooser: &mut Chooser,
    kept: &mut Kept,
    recording: &mut Recording,
) -> Result<Option<Taken>, AllocError>
    requires { IsKept machine.old kept.old }
    ensures taken { IfOk result (λ taken.
        IsTurn machine.old chooser.old recording.old taken machine.new chooser.new recording.new) }
    ensures enabled { OnOk result (IsKept machine.new kept.new) }
    ensures kept { OnErr result (IsUnchanged machine.old chooser.old recording.old
        machine.new chooser.new recording.new) }
{
    for _ in 0..MOST_TRIES {
        let Some(thread) = chooser.candidate_beside(machine, kept.idle.as_slice()) else {
            return Ok(None);
        };
        let turn = machine.step_watched(thread, recording)?;
        if is_enabled(turn.outcome) {
            kept.note_turn(turn.is_quiet);
            chooser.count(thread, 1);
            return Ok(Some((thread, turn.outcome)));
        }
        kept.note_idle(thread, turn.outcome);
    }
    Ok(None)
}

/// Returns whether the same threads are enabled before and after a turn of a thread: the turn was quiet and took place,
/// the thread is enabled after it, and there are as many threads as before.
#[inline(always)]
fn leaves_enabled(turn: Turn, machine: &Machine<'_>, thread: ThreadId, threads: usize) -> bool
    ensures quiet { IsTrue result → IsTrue turn.is_quiet }
    ensures was { IsTrue result → is_enabled turn.outcome ≡ true }
    ensures threads { IsTrue result → length machine.now.state.threads ≡ threads }
    ensures is { IsTrue result → is_enabled_in machine.now thread ≡ true }
{
    turn.is_quiet
        && is_enabled(turn.outcome)
        && machine.thread_count() == threads
        && is_enabled(machine.peek(thread))
}

/// Takes the turn of the thread that the next random word or the priorities name, and returns the thread and the outcome.
/// Returns `None` if no thread is enabled. Then, as on an error, the machine and the items are unchanged.
///
/// Fast path of a seeded run: after a quiet turn, inspects its thread alone.
#[inline(always)]
#[tactic(auto, using(crate::proofs::KeptThreads::nothing_kept, crate::proofs::KeptThreads::idle_forgotten))]
fn take_by_word(
    machine: &mut Machine<'_>,
    chooser: &mut Chooser,
    kept: &mut Kept,
    recording: &mut Recording,
) -> Result<Option<Taken>, AllocError>
    requires seeded { IsTrue (is_seeded chooser.old) }
    requires enabled { IsKept machine.old kept.old }
    ensures taken { IfOk result (λ taken. IsNextTurn machine.old chooser.old
        recording.old taken machine.new chooser.new recording.new) }
    ensures enabled { OnOk result (IsKept machine.new kept.new) }
    ensures untaken { OnErr result (IsUntaken machine.old chooser.old recording.old
        machine.new chooser.new recording.new) }
{
    kept.forget_idle();
    kept.refresh(machine)?;
    let Some(thread) = chooser.next_by_word(kept.threads.as_slice()) else {
        return Ok(None);
    };
    let threads = machine.thread_count();
    let turn = machine.step_watched(thread, recording)?;
    if !leaves_enabled(turn, machine, thread, threads) {
        kept.forget();
    }
    Ok(Some((thread, turn.outcome)))
}

/// Returns whether idle threads are idle after a turn too: it was quiet and took place.
#[inline(always)]
fn leaves_idle(turn: Turn) -> bool
    ensures { result ≡ (turn.is_quiet && is_enabled turn.outcome) }
{
    turn.is_quiet && is_enabled(turn.outcome)
}

/// Takes the turn of the chooser's next choice, and returns the choice and the outcome. Returns `None` if there is no
/// choice. Then, as on an error, the machine and the items are unchanged. On an error, the chooser may have given its
/// next choice.
#[inline(always)]
#[tactic(auto, using(crate::proofs::KeptThreads::kept_after_choice))]
pub(crate) fn take_turn(
    machine: &mut Machine<'_>,
    chooser: &mut Chooser,
    kept: &mut Kept,
    recording: &mut Recording,
) -> Result<Option<Taken>, AllocError>
    requires { IsKept machine.old kept.old }
    ensures taken { IfOk result (λ taken. IsNextTurn machine.old chooser.old
        recording.old taken machine.new chooser.new recording.new) }
    ensures enabled { OnOk result (IsKept machine.new kept.new) }
    ensures untaken { OnErr result (IsUntaken machine.old chooser.old recording.old
        machine.new chooser.new recording.new) }
{
    if chooser.is_seeded() {
        return take_by_word(machine, chooser, kept, recording);
    }
    if let Some(taken) = take_candidate(machine, chooser, kept, recording)? {
        return Ok(Some(taken));
    }
    let Some(thread) = chooser.next(machine) else {
        return Ok(None);
    };
    let turn = machine.step_watched(thread, recording)?;
    kept.note_turn(leaves_idle(turn));
    Ok(Some((thread, turn.outcome)))
}
