//! A law about the trace texts of runs. It is the contract of a function with an empty body.

ghost use Rattle.std.specs.Prelude.{◌≡◌, ◌⊎◌, ℕ, List, Result, Ok, Err};
ghost use Rattle.std.specs.List.{AllByRecursion};
ghost use Rattle.jvms_file.specs.declared.class_file.ClassFile.{ClassFile};
ghost use Rattle.jvms_program.specs.Program.{program_of};
ghost use Rattle.jvms_machine.specs.declared.machine.Limits.{Limits};
ghost use Rattle.jvms_machine.specs.declared.trace.Item.{Item};
ghost use Rattle.jvms_machine.specs.Run.{run_from};
ghost use Rattle.jvms_machine.specs.Start.{Start};
ghost use Rattle.jvms_machine.specs.State.{State};
ghost use Rattle.trace_text.specs.declared.fault.TraceFault.{TraceFault};
ghost use Rattle.trace_text.specs.declared.fault.TraceFault.TheVariants as fault;
ghost use Rattle.trace_text.specs.Traces.{trace_text, IsRead};
ghost use Rattle.run_trace_laws.specs.Written.{IsSpelled, IsNamed, HasNumbers};

/// Proves that the names and descriptors in the items of a run are well formed, if bytes spell the class files of its
/// program. If the numbers of the items fit 32 bits too, the run's trace text is read as the same items, unless memory
/// runs out.
pub fn run_trace_text_is_read()
    ensures named { (files : List ClassFile) (limits : Limits) (start : Start)
        (s : State) (choices : List ℕ) → AllByRecursion IsSpelled files
        → AllByRecursion IsNamed (run_from (program_of files) limits start s choices).items }
    ensures again { (files : List ClassFile) (limits : Limits) (start : Start) (s : State)
        (choices : List ℕ) (answer : Result (List Item) TraceFault) → AllByRecursion IsSpelled files
        → AllByRecursion HasNumbers (run_from (program_of files) limits start s choices).items
        → IsRead (trace_text (run_from (program_of files) limits start s choices).items) answer
        → (answer ≡ Ok (run_from (program_of files) limits start s choices).items)
        ⊎ (answer ≡ Err fault.Memory) }
{}
