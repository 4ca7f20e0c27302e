//! Laws about the definitions. Each is the contract of a function that does nothing.

ghost use Rattle.std.specs.Prelude.{◌≡◌, ℕ, List, Some, true};
ghost use Rattle.jvms_machine.specs.declared.machine.BadCause.TheVariants as cause;
ghost use Rattle.jvms_machine.specs.declared.machine.Limits.{Limits};
ghost use Rattle.jvms_machine.specs.Decisions.{bad};
ghost use Rattle.jvms_machine.specs.State.{Frame, MethodFrame, State, Thread};
ghost use Rattle.jvms_machine.specs.Turn.{frame_turn_decision};
ghost use Rattle.jvms_program.specs.declared.program.Class.{Class};
ghost use Rattle.jvms_program.specs.declared.program.Instruction.{Instruction};
ghost use Rattle.jvms_program.specs.declared.program.Method.{Method};
ghost use Rattle.jvms_program.specs.Program.{method_at};
ghost use Rattle.needs.specs.Outside.{is_outside};

/// Proves that the turn of a program's method at an instruction outside of the profile stops with OutOfProfile,
/// whatever the operands are.
pub fn a_turn_outside_of_the_profile_stops()
    ensures { (program : List Class) (limits : Limits) (s : State) (t : ℕ) (thread : Thread)
        (frame : MethodFrame) (below : List Frame) (m : Method) (i : Instruction)
        → method_at program frame.method ≡ Some m → is_outside i ≡ true
        → frame_turn_decision program limits s t thread frame below (Some i)
        ≡ bad cause.OutOfProfile }
{}
