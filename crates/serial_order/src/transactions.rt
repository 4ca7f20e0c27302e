//! Laws about the transactions of a trace. Each is the contract of a function that does nothing.

ghost use Rattle.std.specs.Prelude.{◌≡◌, ◌+◌, ◌↔◌, ℕ, true, List, [], ◌∷◌, ◌++◌, length};
ghost use Rattle.jvms_machine.specs.declared.trace.Item.{Item};
ghost use Rattle.jvms_machine.specs.Events.{thread_of};
ghost use Rattle.velodrome.specs.Cycles.{IsIn};
ghost use Rattle.velodrome.specs.Specification.{Specification};
ghost use Rattle.velodrome.specs.Transactions.{Event, is_event, trace_state_of};
ghost use Rattle.serial_order.specs.Spans.{StaysAtomic};

/// States when two events are of one transaction: they are of one thread, and an atomic method of it is open from the
/// one to the other. So a transaction is what a thread does from the entry of its outermost atomic method to its exit,
/// or else one event.
pub fn a_transaction_is_one_stay_in_atomic_methods()
    ensures { (lines : Specification) (before between after : List Item) (i j : Item) (e f : Event)
        → is_event i ≡ true → is_event j ≡ true
        → IsIn e (trace_state_of lines (before ++ i ∷ (between ++ j ∷ after))).events
        → IsIn f (trace_state_of lines (before ++ i ∷ (between ++ j ∷ after))).events
        → e.number ≡ length (trace_state_of lines before).events + 1
        → f.number ≡ length (trace_state_of lines (before ++ i ∷ between)).events + 1
        → (e.transaction ≡ f.transaction) ↔ ((thread_of i ≡ thread_of j)
        × StaysAtomic lines (thread_of i) (before ++ i ∷ []) between) }
{}
