//! Laws about the tables of parts: each is the contract of a function that does nothing.

ghost use Rattle.std.specs.Prelude.{◌≡◌, ℕ, ◌+◌, ◌++◌, List, false};
ghost use Rattle.jvms_program.specs.declared.program.Class.{Class};
ghost use Rattle.campaign.specs.Tables.{IsTable};
ghost use Rattle.campaign_jobs.specs.declared.plan.Plan.{Plan};
ghost use Rattle.campaign_jobs.specs.declared.result.JobResult.{JobResult};
ghost use Rattle.campaign_jobs.specs.Plans.{part_of};

/// Proves that the table of a part of a campaign, followed by that of the next part, is the table of both.
pub fn tables_of_parts_make_the_table_of_the_whole()
    ensures { (program : List Class) (plan : Plan) (begin some more : ℕ)
        (results others : List JobResult) → plan.stop ≡ false
        → IsTable program (part_of plan begin some) results
        → IsTable program (part_of plan (begin + some) more) others
        → IsTable program (part_of plan begin (some + more)) (results ++ others) }
{}
