//! Laws about the jobs of a campaign: each is the contract of a function that does nothing.

ghost use Rattle.std.specs.Prelude.{◌≡◌, ℕ, ◌+◌, List};
ghost use Rattle.jvms_program.specs.declared.program.Class.{Class};
ghost use Rattle.program_runs.specs.machine.Machine.{Machine};
ghost use Rattle.program_runs.specs.runs.Choices.{choices_from};
ghost use Rattle.program_runs.specs.schedule.Choosers.{generator_of, chooser_of_schedule};
ghost use Rattle.program_runs.specs.schedule.Schedules.{Ranked, Seeded};
ghost use Rattle.campaign_jobs.specs.declared.choosing.Choosing.TheVariants.{Priorities};
ghost use Rattle.campaign_jobs.specs.declared.plan.Plan.{Plan};
ghost use Rattle.campaign_jobs.specs.declared.result.JobResult.{JobResult};
ghost use Rattle.campaign_jobs.specs.Choices.{choices_by, job_choices};
ghost use Rattle.campaign_jobs.specs.Plans.{part_of, schedule_of, stream_of};
ghost use Rattle.campaign_jobs.specs.Reports.{IsResultOf, job_shown};

/// Proves that the choices of a job are those of the schedule `seed:S:K`, where S is the plan's seed and K the job's
/// stream.
#[tactic(auto, using(crate::proofs::SeededChoices::are_seeded))]
pub fn job_choices_are_seeded()
    ensures { (most seed number : ℕ) (m : Machine) → job_choices most (generator_of seed number) m
        ≡ choices_from most (chooser_of_schedule (Seeded seed number)) m }
{}

/// Proves that the choices of a job by priorities are those of the schedule `pct:S:K:D:N`, where S is the plan's seed and
/// K the job's stream. D and N are the plan's, so they are the same for all jobs.
pub fn job_choices_are_ranked()
    ensures { (depth turns most seed number : ℕ) (m : Machine)
        → choices_by (Priorities depth turns) most seed number m
        ≡ choices_from most (chooser_of_schedule (Ranked seed number depth turns)) m }
{}

/// Proves that the choices of a job are those of its schedule, however the jobs of its plan choose.
#[tactic(auto, using(crate::proofs::JobRuns::are_scheduled))]
pub fn a_job_follows_its_schedule()
    ensures { (plan : Plan) (number : ℕ) (m : Machine)
        → choices_by plan.choosing plan.most plan.seed (stream_of plan number) m
        ≡ choices_from plan.most (chooser_of_schedule (schedule_of plan number)) m }
{}

/// Proves that a job has at most one result: any two are equal.
#[tactic(auto, using(crate::proofs::OneResult::is_one))]
pub fn a_job_has_one_result()
    ensures { (program : List Class) (plan : Plan) (number : ℕ) (first second : JobResult)
        → IsResultOf program plan number first → IsResultOf program plan number second
        → first ≡ second }
{}

/// Proves that a job of a part of a campaign shows what the campaign's job of the same stream shows.
#[tactic(auto, using(crate::proofs::PartJobs::same_job))]
pub fn a_job_of_a_part_is_one_of_the_whole()
    ensures { (program : List Class) (plan : Plan) (begin jobs number : ℕ)
        → job_shown program (part_of plan begin jobs) number
        ≡ job_shown program plan (begin + number) }
{}
