//! Laws about turns beside a change of another thread: each is the contract of a function that does nothing.

ghost use Rattle.std.specs.Prelude.{◌≡◌, ◌<◌, ℕ, List, length, slice_set, slice_get};
ghost use Rattle.jvms_machine.specs.Actions.{applied_to};
ghost use Rattle.jvms_machine.specs.Decisions.{TurnAction};
ghost use Rattle.jvms_machine.specs.Start.{Start};
ghost use Rattle.jvms_machine.specs.State.{Activation, State, Thread};
ghost use Rattle.jvms_machine.specs.Threads.{thread_native_decision};
ghost use Rattle.jvms_machine.specs.Turn.{decide};
ghost use Rattle.jvms_machine.specs.declared.machine.Limits.{Limits};
ghost use Rattle.jvms_machine.specs.declared.value.Value.{Value};
ghost use Rattle.jvms_program.specs.declared.program.Class.{Class};
ghost use Rattle.jvms_program.specs.declared.program.Method.{Method};

/// Proves that an action of a thread and a change of another thread lead to the same state in both orders.
pub fn an_action_commutes_with_another_thread()
    ensures { (program : List Class) (start : Start) (t u : ℕ) (thread : Thread) → (u ≡ t → ⊥)
        → (s : State) (act : TurnAction) → t < length s.threads
        → applied_to program start (record s { threads = slice_set s.threads t thread }) u act
        ≡ record (applied_to program start s u act)
        { threads = slice_set (applied_to program start s u act).threads t thread } }
{}

/// Proves that the decision on a thread's turn depends on the other threads by the natives of Thread alone.
pub fn a_decision_asks_others_by_natives_alone()
    ensures { (program : List Class) (limits : Limits) (start : Start) (s : State)
        (threads : List Thread)
        → ((thread : Thread) (a : Activation) (m : Method) (operands : List Value)
        → thread_native_decision limits (record s { threads = threads }) thread a m operands
        ≡ thread_native_decision limits s thread a m operands)
        → (u : ℕ) → slice_get threads u ≡ slice_get s.threads u
        → decide program limits start (record s { threads = threads }) u
        ≡ decide program limits start s u }
{}
