//! Laws about the definitions. Each is the contract of a function that does nothing.

ghost use Rattle.std.specs.Prelude.{◌≡◌, ◌⊎◌, ℕ, List, Result, Ok, Err};
ghost use Rattle.std.specs.List.{AllByRecursion};
ghost use Rattle.jvms_machine.specs.declared.trace.Item.{Item};
ghost use Rattle.trace_text.specs.declared.fault.TraceFault.{TraceFault};
ghost use Rattle.trace_text.specs.declared.fault.TraceFault.TheVariants as fault;
ghost use Rattle.trace_text.specs.Items.{IsItem};
ghost use Rattle.trace_text.specs.Traces.{trace_text, IsTextOf, IsFaulty, IsRead};

/// Proves that a text is that of one list of items at most.
pub fn a_text_is_of_one_trace()
    ensures { (a b : List Item) → AllByRecursion IsItem a
        → AllByRecursion IsItem b → trace_text a ≡ trace_text b → a ≡ b }
{}

/// Proves that the text of items has no faulty line.
pub fn a_text_of_items_has_no_fault()
    ensures { (text : List ℕ) (items : List Item) (line : ℕ)
        → IsTextOf text items → IsFaulty text line → ⊥ }
{}

/// Proves that a text has at most one first faulty line.
pub fn a_text_has_one_first_fault()
    ensures { (text : List ℕ) (j k : ℕ) → IsFaulty text j → IsFaulty text k → j ≡ k }
{}

/// Proves that reading the text of items returns the same items, unless memory runs out. The names and descriptors of
/// the items must be well formed, and their numbers must have 32 bits.
pub fn what_is_written_is_read_again()
    ensures { (items : List Item) (answer : Result (List Item) TraceFault)
        → AllByRecursion IsItem items → IsRead (trace_text items) answer
        → (answer ≡ Ok items) ⊎ (answer ≡ Err fault.Memory) }
{}
