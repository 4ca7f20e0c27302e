//! Laws about campaigns: each is the contract of a function that does nothing.

ghost use Rattle.std.specs.Prelude.{◌≡◌, List};
ghost use Rattle.jvms_program.specs.declared.program.Class.{Class};
ghost use Rattle.campaign.specs.Tables.{IsTable};
ghost use Rattle.campaign.specs.Whole.{EventsKeep};
ghost use Rattle.campaign_jobs.specs.declared.plan.Plan.{Plan};
ghost use Rattle.campaign_jobs.specs.declared.result.JobResult.{JobResult};

/// Proves that each list of events leads to a state in which desk and book are consistent with the plan.
pub fn events_keep_a_campaign()
    ensures { EventsKeep }
{}

/// Proves that a plan has one table of a program, whichever worker ran which job.
pub fn a_plan_has_one_table()
    ensures { (program : List Class) (plan : Plan) (first second : List JobResult)
        → IsTable program plan first → IsTable program plan second → first ≡ second }
{}
