//! Laws about the definitions. Each is the contract of an empty function, so that the gate proves it.

ghost use Rattle.std.specs.Prelude.{◌≡◌, ◌++◌, ℕ, List, pos, Some};
ghost use Rattle.std.specs.Option.{option_map};
ghost use Rattle.jvms_machine.specs.declared.value.Value.TheVariants as value;
ghost use Rattle.jvms_file.specs.Examples.{gcd_bytes};
ghost use Rattle.jvms_program.specs.declared.program.Class.{Class};
ghost use Rattle.jvms_program.specs.Slots.{instance_keys, static_keys};
ghost use Rattle.jvms_machine.specs.Examples.{gcd_entry, gcd_outcomes, run_of_bytes};
ghost use Rattle.jvms_machine.specs.declared.machine.Limits.{Limits};
ghost use Rattle.jvms_machine.specs.Run.{joined_results, run_from};
ghost use Rattle.jvms_machine.specs.Start.{Start};
ghost use Rattle.jvms_machine.specs.State.{State, instance_fields, keys, static_fields};

/// Proves that 25 choices of thread 0 give 12: 24 turns run, and the thread ends in the last.
pub fn run_of_gcd()
    ensures outcomes { option_map (λ r. r.outcomes) (run_of_bytes gcd_bytes gcd_entry 25)
        ≡ Some gcd_outcomes }
    ensures gives { option_map (λ r. r.state.result) (run_of_bytes gcd_bytes gcd_entry 25)
        ≡ Some (Some (value.Int (pos 12))) }
{}

/// Proves that an object's fields are those of its class's slots, in their order.
pub fn the_keys_of_an_instance_are_those_of_its_class()
    ensures { (program : List Class) (class : List ℕ)
        → keys (instance_fields program class) ≡ instance_keys program class }
{}

/// Proves that the static fields are those of a program's static slots, in their order.
pub fn the_keys_of_static_fields_are_those_of_the_program()
    ensures { (program : List Class) → keys (static_fields program) ≡ static_keys program }
{}

/// Proves that a run of two lists of choices is the run of the first, followed by the run of the second from the state
/// after it. Outcomes and items are concatenated.
pub fn a_run_continues_another()
    ensures { (program : List Class) (limits : Limits) (start : Start) (s : State) (xs ys : List ℕ)
        → run_from program limits start s (xs ++ ys)
        ≡ joined_results (run_from program limits start s xs)
        (run_from program limits start (run_from program limits start s xs).state ys) }
{}
