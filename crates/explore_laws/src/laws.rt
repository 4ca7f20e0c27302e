//! Laws about what an exploration covers: each is the contract of a function that does nothing.

ghost use Rattle.std.specs.Prelude.{◌≡◌, ℕ, ◌≤◌, Bool, List, IsTrue, length};
ghost use Rattle.departures.specs.Departures.{name_of};
ghost use Rattle.departures.specs.Jobs.{AreGoodTo, CanTakeLocals, IsReduced};
ghost use Rattle.departures.specs.Turns.{IsSchedule};
ghost use Rattle.explore_laws.specs.Coverage.{EndsWell, IsWholeRun, JobsEndWell};
ghost use Rattle.jvms_machine.specs.Limits.{are_limits};
ghost use Rattle.jvms_machine.specs.Start.{IsStart, Start};
ghost use Rattle.jvms_machine.specs.State.{Sound, State};
ghost use Rattle.jvms_machine.specs.declared.machine.Limits.{Limits};
ghost use Rattle.jvms_program.specs.Program.{IsProgram};
ghost use Rattle.jvms_program.specs.declared.program.Class.{Class};
ghost use Rattle.local_turns.specs.Turns.{turns_of};
ghost use Rattle.runs.specs.machine.Machine.{Machine};
ghost use Rattle.runs.specs.Choices.{choices_from};
ghost use Rattle.schedule.specs.Choosers.{chooser_of_schedule};
ghost use Rattle.schedule.specs.Schedules.{Staying};
ghost use Rattle.velodrome.specs.Specification.{Specification};

/// Proves that jobs speak for all runs: if the runs of all jobs up to a level end well, so does each run that ends and has
/// at most as many departures, and it has no more than the turns of a job.
pub fn jobs_speak_for_all_runs()
    ensures { (program : List Class) (limits : Limits) (start : Start)
        → IsProgram program → IsTrue (are_limits limits) → IsStart start
        → (lines : Specification) (turns : ℕ) (s : State) (most : ℕ) → Sound program limits s
        → JobsEndWell program limits start lines turns s most → (choices : List ℕ)
        → IsWholeRun program limits start s most choices
        → (length choices ≤ turns) × EndsWell program limits start lines s choices }
{}

/// Proves that jobs speak for reduced runs, whichever threads stay where, as long as a thread that stays can take its turn: if
/// the runs of all jobs up to a level end well, so does each run that ends, has at most as many departures, and leaves no
/// thread where it stays. It has no more than the turns of a job.
pub fn jobs_speak_for_reduced_runs()
    ensures { (program : List Class) (limits : Limits) (start : Start) (stays : State → ℕ → Bool)
        → CanTakeLocals (turns_of program limits start) stays
        → (lines : Specification) (turns : ℕ) (s : State) (most : ℕ)
        → AreGoodTo (turns_of program limits start) stays turns s 0 most
        (EndsWell program limits start lines s) → (choices : List ℕ)
        → IsWholeRun program limits start s most choices
        → IsReduced (turns_of program limits start) stays s 0 choices
        → (length choices ≤ turns) × EndsWell program limits start lines s choices }
{}

/// Proves that the chooser of a schedule's departures makes its choices.
pub fn departures_make_the_choices_of_a_schedule()
    ensures { (m : Machine) (turns : ℕ) (choices : List ℕ)
        → IsSchedule (turns_of m.program m.limits m.start) turns m.state choices
        → choices_from turns (chooser_of_schedule (Staying
        (name_of (turns_of m.program m.limits m.start) 0 m.state 0 choices))) m ≡ choices }
{}
