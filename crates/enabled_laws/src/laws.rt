//! Laws about which threads are enabled: each is the contract of a function that does nothing.
//!
//! They don't cover a thread whose turn was Bad. `Sound` doesn't require that a field's value has the size of its type.
//! So a read of the field may be Bad, for lack of room, until another thread writes it. The clauses `fit` state which
//! turns don't become Bad.

ghost use Rattle.std.specs.Prelude.{◌≡◌, ◌≢◌, ℕ, List, IsTrue, false, true, Some, slice_get};
ghost use Rattle.jvms_machine.specs.declared.machine.Limits.{Limits};
ghost use Rattle.jvms_machine.specs.Limits.{are_limits};
ghost use Rattle.jvms_machine.specs.Start.{IsStart, Start};
ghost use Rattle.jvms_machine.specs.State.{Sound, State, Thread};
ghost use Rattle.jvms_machine.specs.Status.{is_bad, is_enabled};
ghost use Rattle.jvms_machine.specs.Turn.{decide, turn};
ghost use Rattle.jvms_program.specs.Program.{IsProgram};
ghost use Rattle.jvms_program.specs.declared.program.Class.{Class};
ghost use Rattle.enabled_laws.specs.Kept.{Keeps};
ghost use Rattle.enabled_laws.specs.Quiet.{is_giving_decision, is_quiet_decision, is_taking_decision};

/// Proves that a quiet turn keeps whether each other thread is enabled. Its action enters no free monitor and frees
/// none, and begins and ends no initialisation and no thread. It may notify. A thread whose turn wasn't Bad isn't Bad
/// after it.
pub fn a_quiet_turn_leaves_the_others_as_enabled()
    ensures enabled { (program : List Class) (limits : Limits) (start : Start) (s : State) (t u : ℕ)
        → IsProgram program → IsTrue (are_limits limits) → IsStart start → Sound program limits s
        → u ≢ t → is_bad (turn program limits start s u).outcome ≡ false
        → is_quiet_decision (decide program limits start s t) ≡ true
        → is_enabled (turn program limits start (turn program limits start s t).state u).outcome
        ≡ is_enabled (turn program limits start s u).outcome }
    ensures fit { (program : List Class) (limits : Limits) (start : Start) (s : State) (t u : ℕ)
        → IsProgram program → IsTrue (are_limits limits) → IsStart start → Sound program limits s
        → u ≢ t → is_bad (turn program limits start s u).outcome ≡ false
        → is_quiet_decision (decide program limits start s t) ≡ true
        → is_bad (turn program limits start (turn program limits start s t).state u).outcome
        ≡ false }
{}

/// Proves that a turn keeps whether each other thread is enabled, if it keeps the held monitors and the
/// initialisations, starts no thread, and doesn't end its own. A thread whose turn wasn't Bad isn't Bad after it.
pub fn a_turn_that_keeps_what_is_waited_for_leaves_the_others_as_enabled()
    ensures enabled { (program : List Class) (limits : Limits) (start : Start) (s : State) (t u : ℕ)
        → IsProgram program → IsTrue (are_limits limits) → IsStart start → Sound program limits s
        → u ≢ t → is_bad (turn program limits start s u).outcome ≡ false
        → Keeps s (turn program limits start s t)
        → is_enabled (turn program limits start (turn program limits start s t).state u).outcome
        ≡ is_enabled (turn program limits start s u).outcome }
    ensures fit { (program : List Class) (limits : Limits) (start : Start) (s : State) (t u : ℕ)
        → IsProgram program → IsTrue (are_limits limits) → IsStart start → Sound program limits s
        → u ≢ t → is_bad (turn program limits start s u).outcome ≡ false
        → Keeps s (turn program limits start s t)
        → is_bad (turn program limits start (turn program limits start s t).state u).outcome
        ≡ false }
{}

/// Proves that a turn that frees nothing enables no other thread: one that is enabled after the turn was enabled
/// before. A thread that was neither enabled nor Bad isn't Bad after it.
pub fn a_taking_turn_enables_no_other()
    ensures enabled { (program : List Class) (limits : Limits) (start : Start) (s : State)
        (t u : ℕ) (thread : Thread) → IsProgram program → IsTrue (are_limits limits)
        → IsStart start → Sound program limits s → u ≢ t → slice_get s.threads u ≡ Some thread
        → is_bad (turn program limits start s u).outcome ≡ false
        → is_taking_decision (decide program limits start s t) ≡ true
        → is_enabled (turn program limits start (turn program limits start s t).state u).outcome
        ≡ true → is_enabled (turn program limits start s u).outcome ≡ true }
    ensures fit { (program : List Class) (limits : Limits) (start : Start) (s : State)
        (t u : ℕ) (thread : Thread) → IsProgram program → IsTrue (are_limits limits)
        → IsStart start → Sound program limits s → u ≢ t → slice_get s.threads u ≡ Some thread
        → is_bad (turn program limits start s u).outcome ≡ false
        → is_taking_decision (decide program limits start s t) ≡ true
        → is_enabled (turn program limits start s u).outcome ≡ false
        → is_bad (turn program limits start (turn program limits start s t).state u).outcome
        ≡ false }
{}

/// Proves that a turn that takes nothing disables no other thread. A thread whose turn wasn't Bad isn't Bad after it.
pub fn a_giving_turn_disables_no_other()
    ensures enabled { (program : List Class) (limits : Limits) (start : Start) (s : State)
        (t u : ℕ) (thread : Thread) → IsProgram program → IsTrue (are_limits limits)
        → IsStart start → Sound program limits s → u ≢ t → slice_get s.threads u ≡ Some thread
        → is_giving_decision (decide program limits start s t) ≡ true
        → is_enabled (turn program limits start s u).outcome ≡ true
        → is_enabled (turn program limits start (turn program limits start s t).state u).outcome
        ≡ true }
    ensures fit { (program : List Class) (limits : Limits) (start : Start) (s : State)
        (t u : ℕ) (thread : Thread) → IsProgram program → IsTrue (are_limits limits)
        → IsStart start → Sound program limits s → u ≢ t → slice_get s.threads u ≡ Some thread
        → is_bad (turn program limits start s u).outcome ≡ false
        → is_giving_decision (decide program limits start s t) ≡ true
        → is_bad (turn program limits start (turn program limits start s t).state u).outcome
        ≡ false }
{}
