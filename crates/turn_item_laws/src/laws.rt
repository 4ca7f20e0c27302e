//! Laws about the items of turns beyond those of `jvms_machine`: each is the contract of a function that does nothing.

ghost use Rattle.std.specs.Prelude.{◌≡◌, ◌≢◌, ℕ, List, IsTrue, Some, None, slice_get};
ghost use Rattle.std.specs.List.{filter};
ghost use Rattle.jvms_machine.specs.declared.machine.Limits.{Limits};
ghost use Rattle.jvms_machine.specs.Limits.{are_limits};
ghost use Rattle.jvms_machine.specs.Opening.{opening};
ghost use Rattle.jvms_machine.specs.Start.{IsStart, Start};
ghost use Rattle.jvms_machine.specs.State.{Sound, State, Thread, new_thread};
ghost use Rattle.jvms_machine.specs.Turn.{turn};
ghost use Rattle.jvms_program.specs.Program.{IsProgram};
ghost use Rattle.jvms_program.specs.declared.program.Class.{Class};
ghost use Rattle.turn_item_laws.specs.Accesses.{accesses_between, is_access};
ghost use Rattle.turn_item_laws.specs.LowestCalls.{HaveLowestCalls};
ghost use Rattle.turn_item_laws.specs.Joins.{is_join, joins_between};
ghost use Rattle.turn_item_laws.specs.ItemsBetween.{items_between};

/// Proves that the states determine the joins among the items of a turn. A thread joins the thread of the object for
/// which its call of `join` is, if that thread has ended and the call returns, and no other.
pub fn joins_are_those_of_returns()
    ensures { (program : List Class) (limits : Limits) (start : Start) (s : State) (t : ℕ)
        → IsProgram program → Sound program limits s
        → filter is_join (turn program limits start s t).items
        ≡ joins_between program t s (turn program limits start s t).state }
{}

/// Proves that the states determine the reads and writes among the items of a turn. A thread reads or writes the
/// variable of its next load or store, if its call continues after it, and no other.
pub fn accesses_are_those_of_loads_and_stores()
    ensures { (program : List Class) (limits : Limits) (start : Start) (s : State) (t : ℕ)
        → filter is_access (turn program limits start s t).items
        ≡ accesses_between program t s (turn program limits start s t).state }
{}

/// Proves that a turn leaves each other thread as it is, and its own thread with its Thread object. An added thread is
/// a new one of a Thread object.
pub fn a_turn_changes_no_other_thread()
    ensures others { (program : List Class) (limits : Limits) (start : Start) (s : State)
        (t u : ℕ) (thread : Thread) → u ≢ t → slice_get s.threads u ≡ Some thread
        → slice_get (turn program limits start s t).state.threads u ≡ Some thread }
    ensures own { (program : List Class) (limits : Limits) (start : Start) (s : State)
        (t : ℕ) (thread after : Thread) → slice_get s.threads t ≡ Some thread
        → slice_get (turn program limits start s t).state.threads t ≡ Some after
        → after.object ≡ thread.object }
    ensures new { (program : List Class) (limits : Limits) (start : Start)
        (s : State) (t u : ℕ) (thread : Thread) → slice_get s.threads u ≡ None
        → slice_get (turn program limits start s t).state.threads u ≡ Some thread
        → (r : ℕ) × (thread ≡ new_thread (Some r)) }
{}

/// Proves that the states before and after a turn determine all its items, in their order.
pub fn states_determine_items()
    ensures { (program : List Class) (limits : Limits) (start : Start) (s : State) (t : ℕ)
        → IsProgram program → IsTrue (are_limits limits) → IsStart start → Sound program limits s
        → (turn program limits start s t).items
        ≡ items_between program t s (turn program limits start s t).state }
{}

/// Proves that a thread whose first call was made has a call as its lowest frame until the thread has ended: at the
/// opening, and after a turn if before it.
pub fn a_thread_has_a_call_until_it_ends()
    ensures opening { (program : List Class) → HaveLowestCalls (opening program).threads }
    ensures turns { (program : List Class) (limits : Limits) (start : Start) (s : State) (t : ℕ)
        → HaveLowestCalls s.threads
        → HaveLowestCalls (turn program limits start s t).state.threads }
{}
