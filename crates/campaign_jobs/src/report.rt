//! The report of a job.

ghost use Rattle.campaign_jobs.specs.Reports.{IsResultOf};

use crate::plan::Plan;
use crate::result::JobResult;
use program::Program;

/// A report: the result of a job. Its type ensures that the result is that of the job of this number, by the program
/// and the plan that the report names.
#[derive(Drop)]
pub struct Report<'a> {
    /// The program that was run.
    pub program: &'a Program,
    /// The plan of the job.
    pub plan: &'a Plan,
    /// The job's number.
    pub number: u64,
    /// The result of the job.
    pub result: JobResult,
    ghost right: { IsResultOf program.now plan.now number result },
}
