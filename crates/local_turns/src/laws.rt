//! Laws about local turns: each is the contract of a function that does nothing.

ghost use Rattle.std.specs.Prelude.{◌≡◌, ◌≤◌, ℕ, Bool, List, IsTrue, false, length};
ghost use Rattle.departures.specs.Departures.{departures};
ghost use Rattle.departures.specs.Jobs.{AreGoodTo};
ghost use Rattle.departures.specs.Reductions.{AreLocal, StandsFor, seen_by};
ghost use Rattle.departures.specs.Turns.{IsRun, IsStuck};
ghost use Rattle.jvms_machine.specs.Limits.{are_limits};
ghost use Rattle.jvms_machine.specs.Run.{run_from};
ghost use Rattle.jvms_machine.specs.Start.{IsStart, Start};
ghost use Rattle.jvms_machine.specs.State.{Sound, State};
ghost use Rattle.jvms_machine.specs.declared.machine.Limits.{Limits};
ghost use Rattle.jvms_machine.specs.declared.trace.Item.{Item};
ghost use Rattle.jvms_program.specs.Program.{IsProgram};
ghost use Rattle.jvms_program.specs.declared.program.Class.{Class};
ghost use Rattle.mark_laws.specs.Swaps.{AreAlike};
ghost use Rattle.local_turns.specs.Judged.{Judged, all_items, is_judged_local, judged_turns, no_items};
ghost use Rattle.local_laws.specs.Local.{is_local};
ghost use Rattle.local_turns.specs.Turns.{items_in, turns_of, view_of};
ghost use Rattle.velodrome.specs.Specification.{Specification};
ghost use Rattle.velodrome.specs.Transactions.{TraceState, trace_state_of};

/// Proves that in sound states local turns are local: they commute with the turns of other threads, give at most marks,
/// so that a verdict sees the same of both orders, stay local, and leave the others as enabled as they were.
pub fn local_turns_touch_their_threads_alone()
    ensures { (program : List Class) (limits : Limits) (start : Start)
        → IsProgram program → IsTrue (are_limits limits) → IsStart start
        → AreLocal (turns_of program limits start) (is_local program limits start)
        (items_in program limits start) (seen_by view_of) (Sound program limits) }
{}

/// Proves that each run that ends has a reduced one: it leaves a thread only where its next turn isn't local. It has the
/// same state at its end, as many turns, no more departures, and a trace with the same view.
pub fn each_run_has_a_reduced_one()
    ensures { (program : List Class) (limits : Limits) (start : Start)
        → IsProgram program → IsTrue (are_limits limits) → IsStart start
        → (s : State) (last : ℕ) (choices : List ℕ) → Sound program limits s
        → IsRun (turns_of program limits start) s choices
        → IsStuck (turns_of program limits start) (run_from program limits start s choices).state
        → (reduced : List ℕ)
        × StandsFor (turns_of program limits start) (is_local program limits start)
        (items_in program limits start) (seen_by view_of) s last choices reduced }
{}

/// Proves that traces have the same view just if they are alike.
pub fn views_are_the_same_of_alike_traces()
    ensures { (items others : List Item)
        → view_of items ≡ view_of others → AreAlike items others }
{}

/// Proves that levels of jobs cover the machine's runs: if the run of no job up to a level is to be reported, by its
/// state and the state of its trace, no run is that ends within the turns and has at most this number of departures.
pub fn levels_cover_the_runs_of_a_machine()
    ensures { (program : List Class) (limits : Limits) (start : Start)
        → IsProgram program → IsTrue (are_limits limits) → IsStart start
        → (lines : Specification) (report : State → TraceState → Bool)
        → (turns : ℕ) (s : State) (last most : ℕ) → Sound program limits s
        → AreGoodTo (turns_of program limits start) (is_local program limits start) turns s last most
        (λ choices. report (run_from program limits start s choices).state
        (trace_state_of lines (run_from program limits start s choices).items) ≡ false)
        → (choices : List ℕ)
        → IsRun (turns_of program limits start) s choices
        → IsStuck (turns_of program limits start) (run_from program limits start s choices).state
        → length choices ≤ turns
        → departures (turns_of program limits start) s last choices ≤ most
        → report (run_from program limits start s choices).state
        (trace_state_of lines (run_from program limits start s choices).items) ≡ false }
{}

/// Proves that in sound states local turns are local beside the state of the trace, with no items: a checker that takes
/// each turn's items is in the same state after both orders.
pub fn local_turns_are_local_beside_a_checker()
    ensures { (program : List Class) (limits : Limits) (start : Start) (lines : Specification)
        → IsProgram program → IsTrue (are_limits limits) → IsStart start
        → AreLocal (judged_turns program limits start lines) (is_judged_local program limits start)
        no_items (seen_by all_items) (λ j. Sound program limits j.state) }
{}
