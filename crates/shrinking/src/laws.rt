//! Laws about shrinking: each is the contract of a function that does nothing.

ghost use Rattle.std.specs.Prelude.{◌≡◌, ◌≤◌, ℕ, Bool, List, length};
ghost use Rattle.departures.specs.Departures.{name_of};
ghost use Rattle.departures.specs.Turns.{IsRun};
ghost use Rattle.departures.specs.declared.departure.Departure.{Departure};
ghost use Rattle.explore_jobs.specs.Children.{turns_in};
ghost use Rattle.explore_jobs.specs.declared.plan.Plan.{Plan};
ghost use Rattle.jvms_program.specs.declared.program.Class.{Class};
ghost use Rattle.machine.specs.Machine.{Machine};
ghost use Rattle.runs.specs.Choices.{choices_from};
ghost use Rattle.schedule.specs.Choosers.{chooser_of_schedule};
ghost use Rattle.schedule.specs.Schedules.{Staying};
ghost use Rattle.shrinking.specs.Further.{GoesOn};
ghost use Rattle.shrinking.specs.Least.{IsTestOf};
ghost use Rattle.shrinking.specs.declared.failure.Failure.{Failure};

use explore_laws::laws::departures_make_the_choices_of_a_schedule;

/// Proves that a job has one test: no run of it fails in a way in which another doesn't.
pub fn a_job_has_one_test()
    ensures { (program : List Class) (plan : Plan) (way : Failure) (departures : List Departure)
        (first second : Bool) → IsTestOf program plan way departures first
        → IsTestOf program plan way departures second → first ≡ second }
{}

/// Proves that the departures of a run make its choices, and then the default's. Each choice is of an enabled thread, and
/// they are at most the turns of a job.
pub fn departures_of_a_run_go_on_by_the_default()
    ensures { (m : Machine) (turns : ℕ) (choices : List ℕ)
        → IsRun (turns_in m) m.state choices → length choices ≤ turns
        → GoesOn m turns choices (choices_from turns (chooser_of_schedule (Staying
        (name_of (turns_in m) 0 m.state 0 choices))) m) }
{
    departures_make_the_choices_of_a_schedule();
}
