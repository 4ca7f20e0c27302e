//! Laws about serial orders. Each is the contract of a function that does nothing.

ghost use Rattle.std.specs.Prelude.{◌≡◌, ℕ, List};
ghost use Rattle.jvms_machine.specs.declared.trace.Item.{Item};
ghost use Rattle.velodrome.specs.Cycles.{AreAtomic, IsCycle};
ghost use Rattle.velodrome.specs.Orders.{IsOrder};
ghost use Rattle.velodrome.specs.Rearrangements.{IsRearrangement, IsSerial};
ghost use Rattle.velodrome.specs.Specification.{Specification};
ghost use Rattle.velodrome.specs.Transactions.{Event, TraceState, trace_state_of};
ghost use Rattle.velodrome.specs.Verdicts.{IsVerdict};
ghost use Rattle.velodrome.specs.declared.verdict.ConflictingPair.{ConflictingPair};
ghost use Rattle.velodrome.specs.declared.verdict.Verdict.TheVariants as verdict;

/// Proves that a serial order is a rearrangement.
pub fn a_serial_order_is_a_rearrangement()
    ensures { (events : List Event) (numbers : List ℕ) → IsSerial events numbers
        → IsRearrangement events numbers }
{}

/// Proves that each rearrangement of a trace is a serial order: each read has its write.
pub fn a_rearrangement_is_a_serial_order()
    ensures { (lines : Specification) (items : List Item) (numbers : List ℕ)
        → IsRearrangement (trace_state_of lines items).events numbers
        → IsSerial (trace_state_of lines items).events numbers }
{}

/// Proves that a trace with a cycle of transactions has no rearrangement.
pub fn a_cycle_has_no_rearrangement()
    ensures { (lines : Specification) (items : List Item) (transactions numbers : List ℕ)
        → IsCycle (trace_state_of lines items).events transactions
        → IsRearrangement (trace_state_of lines items).events numbers → ⊥ }
{}

/// Proves that a trace whose transactions have an order has no cycle.
pub fn an_order_leaves_no_cycle()
    ensures { (lines : Specification) (items : List Item) (order : List ℕ)
        → IsOrder (trace_state_of lines items).events
        (trace_state_of lines items).transactions order
        → AreAtomic (trace_state_of lines items).events }
{}

/// Proves that no trace has both verdicts, and that all verdicts of a cycle name the same number of events.
pub fn a_trace_has_one_verdict()
    ensures apart { (w : TraceState) (order : List ℕ) (first_at : ℕ) (transactions : List ℕ)
        (pairs : List ConflictingPair) → IsVerdict w (verdict.Atomic order)
        → IsVerdict w (verdict.Cycle first_at transactions pairs) → ⊥ }
    ensures first { (w : TraceState) (m n : ℕ) (some others : List ℕ)
        (pairs more : List ConflictingPair) → IsVerdict w (verdict.Cycle m some pairs)
        → IsVerdict w (verdict.Cycle n others more) → m ≡ n }
{}
