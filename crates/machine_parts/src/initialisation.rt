//! The progress of class initialisation, and the decision on a turn that requires it (JVMS 5.5).

ghost use Rattle.std.specs.Prelude.{◌≡◌, IsTrue, slice_get};
ghost use Rattle.jvms_machine.specs.Decisions.{TurnDecision};
ghost use Rattle.jvms_machine.specs.Initialisation.{begin_decision, class_use_decision};
ghost use Rattle.jvms_machine.specs.State.{Thread as SeenThread};
ghost use Rattle.machine_parts.specs.Before.{first_or};
ghost use Rattle.machine_parts.specs.Decided.{decision_value};

use crate::decision::{Decided, never_seen};
use crate::parts::Parts;
use jvms_machine::action::{Action, Decision};
use jvms_machine::machine::{BlockedOn, Outcome, ThreadId};
use jvms_machine::state::Initialisation;
use jvms_program::number::ClassNumber;
use jvms_program::thrown::Thrown;
use machine_thread::Thread;

impl<'p> Parts<'p> {
    /// Returns the state of the initialisation of a class.
    pub fn initialisation(&self, class: ClassNumber) -> Option<Initialisation>
        ensures { result ≡ slice_get self.now.state.initialisations class }
    {
        self.initialisations.as_slice().get(class).copied()
    }

    /// Fast path of `class_use_decision`: reports that a turn which requires the initialisation of a class continues.
    #[inline(always)]
    pub fn is_initialised_for(&self, t: ThreadId, class: ClassNumber) -> bool
        ensures { (thread : SeenThread) (continued : TurnDecision) → IsTrue result
            → class_use_decision self.now.program self.now.limits self.now.state t thread
            class continued ≡ continued }
    {
        match self.initialisation(class) {
            Some(Initialisation::Done) => true,
            Some(Initialisation::InProgress { thread }) => thread == t,
            Some(Initialisation::NotBegun | Initialisation::Erroneous) | None => false,
        }
    }

    /// Decides the start of a class's initialisation. Throws if there is no room for the strings of its constants, or
    /// for its frame.
    fn begin_decision(&self, thread: &Thread, class: ClassNumber) -> Decided<'p>
        ensures { decision_value result
            ≡ begin_decision self.now.limits self.now.state thread.now class
            (slice_get self.now.program class) }
    {
        let Some(c) = self.program().class(class) else {
            return never_seen();
        };
        if !self.has_room_for(self.new_texts(class, c)) {
            return self.throws(thread, Thrown::OutOfMemoryError);
        }
        if self.limits.frames as usize <= thread.height() {
            return self.throws(thread, Thrown::StackOverflowError);
        }
        Decision::Applies(Action::Begins { class })
    }

    /// Decides a turn that requires the initialisation of a class. Returns `None` if the turn continues, else the
    /// decision instead of it.
    pub fn class_use_decision(
        &self,
        t: ThreadId,
        thread: &Thread,
        class: ClassNumber,
    ) -> Option<Decided<'p>>
        ensures { (continued : TurnDecision) → first_or continued result
            ≡ class_use_decision self.now.program self.now.limits self.now.state t thread.now class
            continued }
    {
        match self.initialisation(class) {
            None => Some(never_seen()),
            Some(Initialisation::Erroneous) => {
                Some(self.throws(thread, Thrown::NoClassDefFoundError))
            }
            Some(Initialisation::NotBegun) => Some(self.begin_decision(thread, class)),
            Some(Initialisation::Done) => None,
            Some(Initialisation::InProgress { thread: owner }) => {
                if owner == t {
                    return None;
                }
                Some(Decision::Stays(Outcome::Blocked {
                    on: BlockedOn::Initialisation { class, owner },
                }))
            }
        }
    }
}
