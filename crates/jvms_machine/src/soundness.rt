//! Laws about turns. Each is the contract of an empty function, so that the gate proves it. The opening state
//! is sound, and a turn keeps a state sound. An entry gives arguments. The turn of a thread that isn't enabled changes
//! nothing. The items of a turn are the marks of pushed and popped calls, and the events of monitors and threads that
//! change. A pending exception is unwound. Each state and thread have one transition, because `turn` is a function.

ghost use Rattle.std.specs.Prelude.{◌≡◌, ℕ, List, [], IsTrue, true, false, Some, slice_get};
ghost use Rattle.std.specs.List.{filter};
ghost use Rattle.jvms_machine.specs.declared.machine.Entry.{Entry};
ghost use Rattle.jvms_machine.specs.declared.machine.Limits.{Limits};
ghost use Rattle.jvms_program.specs.declared.program.Class.{Class};
ghost use Rattle.jvms_program.specs.Program.{IsProgram};
ghost use Rattle.jvms_machine.specs.State.{State, Thread, Sound};
ghost use Rattle.jvms_machine.specs.Start.{Start, IsStart, start_of};
ghost use Rattle.jvms_machine.specs.Limits.{are_limits};
ghost use Rattle.jvms_machine.specs.Opening.{opening};
ghost use Rattle.jvms_machine.specs.Status.{is_enabled};
ghost use Rattle.jvms_machine.specs.Marks.{calls_of, is_mark, marks_between};
ghost use Rattle.jvms_machine.specs.Events.{is_acquire, is_release, is_fork, acquires_between, releases_between, forks_between};
ghost use Rattle.jvms_machine.specs.Turn.{turn};
ghost use Rattle.jvms_machine.specs.Unwinding.{CanBeUnwound};

/// Proves that the state after a turn of any thread is sound, if the state before it is and the classes are a program.
pub fn a_turn_keeps_a_state_sound()
    ensures { (program : List Class) (limits : Limits) (start : Start) (s : State) (t : ℕ)
        → IsProgram program → IsTrue (are_limits limits) → IsStart start → Sound program limits s
        → Sound program limits (turn program limits start s t).state }
{}

/// Proves that the opening state is sound.
pub fn the_opening_state_is_sound()
    ensures { (program : List Class) (limits : Limits) → IsTrue (are_limits limits)
        → Sound program limits (opening program) }
{}

/// Proves that an entry starts with arguments that are ints, longs, or references that exist at the opening.
pub fn an_entry_gives_a_start()
    ensures { (program : List Class) (entry : Entry) (start : Start)
        → start_of program entry ≡ Some start → IsStart start }
{}

/// Proves that the turn of a thread that isn't enabled changes nothing. The state is the one before it, and no item is
/// added to the trace.
pub fn a_disabled_turn_changes_nothing()
    ensures state { (program : List Class) (limits : Limits) (start : Start) (s : State) (t : ℕ)
        → is_enabled (turn program limits start s t).outcome ≡ false
        → (turn program limits start s t).state ≡ s }
    ensures items { (program : List Class) (limits : Limits) (start : Start) (s : State) (t : ℕ)
        → is_enabled (turn program limits start s t).outcome ≡ false
        → (turn program limits start s t).items ≡ [] }
{}

/// Proves that the marks among the items of a turn are those of pushed and popped calls: the exits of popped calls,
/// then the entries of pushed ones. Methods of built-in classes have no marks.
pub fn marks_are_those_of_frames()
    ensures { (program : List Class) (limits : Limits) (start : Start) (s : State) (t : ℕ)
        → IsTrue (are_limits limits) → IsStart start → Sound program limits s
        → filter is_mark (turn program limits start s t).items ≡ marks_between program t
        (calls_of s t) (calls_of (turn program limits start s t).state t) }
{}

/// Proves that the states determine the entries and exits of monitors among the items of a turn. The thread acquires
/// each monitor that is free before the turn and held after it. It releases each that is held before it and free after
/// it, and no other.
pub fn monitor_events_are_those_of_monitors()
    ensures acquires { (program : List Class) (limits : Limits) (start : Start) (s : State) (t : ℕ)
        → IsProgram program → IsTrue (are_limits limits) → IsStart start → Sound program limits s
        → filter is_acquire (turn program limits start s t).items
        ≡ acquires_between t s (turn program limits start s t).state }
    ensures releases { (program : List Class) (limits : Limits) (start : Start) (s : State) (t : ℕ)
        → IsProgram program → IsTrue (are_limits limits) → IsStart start → Sound program limits s
        → filter is_release (turn program limits start s t).items
        ≡ releases_between t s (turn program limits start s t).state }
{}

/// Proves that the states determine the starts of threads among the items of a turn. The thread forks each thread that
/// exists after the turn and not before it, by its number, and no other.
pub fn forks_are_those_of_threads()
    ensures { (program : List Class) (limits : Limits) (start : Start) (s : State) (t : ℕ)
        → IsProgram program → IsTrue (are_limits limits) → IsStart start → Sound program limits s
        → filter is_fork (turn program limits start s t).items
        ≡ forks_between t s (turn program limits start s t).state }
{}

/// Proves that a thread with a pending exception is enabled if it has not ended. A handler takes the exception, or the
/// top frame is popped.
pub fn a_pending_exception_is_unwound()
    ensures { (program : List Class) (limits : Limits) (start : Start) (s : State) (t : ℕ)
        (thread : Thread) (r : ℕ) → Sound program limits s → slice_get s.threads t ≡ Some thread
        → thread.ended ≡ false → thread.pending ≡ Some r → CanBeUnwound thread.frames
        → is_enabled (turn program limits start s t).outcome ≡ true }
{}
