//! Calls before and after each job.

use campaign_jobs::JobResult;

/// A gate: the thread that runs a job calls it before and after. It holds no lock at those times.
pub trait Gate {
    /// Runs before the job with this number is run or skipped.
    fn before(&self, number: u64);

    /// Runs after the job with this number was run or skipped, unless memory ran out for it.
    fn after(&self, number: u64);

    /// Runs after a job was run, with its result, and before that is stored. The default does nothing.
    fn reported(&self, _number: u64, _job: JobResult) {}

    /// Runs after all workers are back, in the thread that waited for them. The default does nothing.
    fn ended(&self) {}
}

/// A gate that lets every job pass.
#[derive(Clone, Copy, Debug)]
pub struct OpenGate;

impl Gate for OpenGate {
    fn before(&self, _number: u64) {}

    fn after(&self, _number: u64) {}
}
