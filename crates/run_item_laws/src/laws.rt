//! A law about runs, for what checks a run's trace. It is the contract of a function that does nothing.

ghost use Rattle.std.specs.Prelude.{◌≡◌, ℕ, ◌≤◌, List, ◌++◌, length, IsTrue};
ghost use Rattle.jvms_machine.specs.declared.machine.Limits.{Limits};
ghost use Rattle.jvms_machine.specs.declared.trace.Item.{Item};
ghost use Rattle.jvms_machine.specs.Limits.{are_limits};
ghost use Rattle.jvms_machine.specs.Opening.{opening};
ghost use Rattle.jvms_machine.specs.Run.{run_from};
ghost use Rattle.jvms_machine.specs.Start.{IsStart, Start};
ghost use Rattle.jvms_program.specs.Program.{IsProgram};
ghost use Rattle.jvms_program.specs.declared.program.Class.{Class};
ghost use Rattle.run_item_laws.specs.Feeding.{AreMatched};
ghost use Rattle.velodrome.specs.Specification.{Specification};
ghost use Rattle.velodrome.specs.Transactions.{trace_state_of};

/// Proves that the items of a run from the opening state may be fed to a checker. Each exit is of its thread's
/// innermost open method, and there is at most one event for each choice.
pub fn items_of_a_run_may_be_fed()
    ensures matched { (lines : Specification) (program : List Class)
        (limits : Limits) (start : Start) (choices : List ℕ)
        → IsProgram program → IsTrue (are_limits limits) → IsStart start
        → AreMatched lines (run_from program limits start (opening program) choices).items }
    ensures few { (lines : Specification) (program : List Class)
        (limits : Limits) (start : Start) (choices : List ℕ)
        → length (trace_state_of lines
        (run_from program limits start (opening program) choices).items).events ≤ length choices }
    ensures within { (lines : Specification) (program : List Class) (limits : Limits)
        (start : Start) (choices : List ℕ) (before after : List Item)
        → (run_from program limits start (opening program) choices).items ≡ before ++ after
        → length (trace_state_of lines before).events ≤ length choices }
{}
