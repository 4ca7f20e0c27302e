//! The status of a machine.

ghost use Rattle.std.specs.Prelude.{◌≡◌, drop};
ghost use Rattle.std.specs.List.{list_all};
ghost use Rattle.jvms_machine.specs.Status.{is_enabled, is_bad, status_of};
ghost use Rattle.invoke.specs.machine_parts.Ready.{AreNumbered};
ghost use Rattle.machine.specs.CanTurn.{HaveTheirCode};
ghost use Rattle.machine.specs.Statuses.{any_thread};

use crate::machine::Machine;
use crate::peek::peek;
use invoke::machine_parts::Parts;
use jvms_machine::machine::{Outcome, Status, ThreadId};

/// Decides whether a thread whose next turn has this outcome is enabled: the turn can be taken.
#[inline]
pub fn is_enabled(outcome: Outcome) -> bool
    ensures { result ≡ is_enabled outcome }
{
    match outcome {
        Outcome::Ran | Outcome::Raised => true,
        Outcome::Ended { last } => last,
        Outcome::Blocked { .. } | Outcome::NoThread | Outcome::Bad { .. } => false,
    }
}

/// Decides whether a thread whose next turn has this outcome is stuck, because the turn is Bad.
#[inline]
pub fn is_bad(outcome: Outcome) -> bool
    ensures { result ≡ is_bad outcome }
{
    matches!(outcome, Outcome::Bad { .. })
}

/// Decides whether all threads have ended.
fn have_all_ended(parts: &Parts) -> bool
    ensures { result ≡ list_all (λ x. x.ended) parts.now.state.threads }
{
    parts
        .threads
        .as_slice()
        .iter()
        .all(|thread| thread.has_ended())
}

/// Decides whether a thread from number `t` on is enabled.
fn any_enabled(parts: &Parts, t: ThreadId) -> bool
    requires numbered { AreNumbered parts.now.state }
    requires code { HaveTheirCode parts.now }
    ensures { result ≡ any_thread is_enabled parts.now t (drop t parts.now.state.threads) }
{
    if t as usize >= parts.threads.len() {
        return false;
    }
    is_enabled(peek(parts, t)) || any_enabled(parts, t + 1)
}

/// Decides whether the next turn of a thread from number `t` on is Bad.
fn any_bad(parts: &Parts, t: ThreadId) -> bool
    requires numbered { AreNumbered parts.now.state }
    requires code { HaveTheirCode parts.now }
    ensures { result ≡ any_thread is_bad parts.now t (drop t parts.now.state.threads) }
{
    if t as usize >= parts.threads.len() {
        return false;
    }
    is_bad(peek(parts, t)) || any_bad(parts, t + 1)
}

/// Returns the status of the machine.
#[tactic(auto, using(crate::proofs::StatusLaws::any_is), unfolding(jvms_machine::specs::Status::status_of))]
fn standing(parts: &Parts) -> Status
    requires numbered { AreNumbered parts.now.state }
    requires code { HaveTheirCode parts.now }
    ensures { result
        ≡ status_of parts.now.program parts.now.limits parts.now.start parts.now.state }
{
    if have_all_ended(parts) {
        Status::Finished
    } else if any_enabled(parts, 0) {
        Status::Running
    } else if any_bad(parts, 0) {
        Status::Stalled
    } else {
        Status::Deadlocked
    }
}

impl Machine<'_> {
    /// Returns the status of the machine. It is finished if all threads have ended, else running if one is enabled,
    /// else stalled if the turn of one is Bad, else deadlocked. Takes no memory.
    #[tactic(auto, using(crate::proofs::Callers::threads_are_numbered, crate::proofs::Sites::have_their_code))]
    pub fn status(&self) -> Status
        ensures { result
            ≡ status_of self.now.program self.now.limits self.now.start self.now.state }
    {
        standing(&self.parts)
    }
}
