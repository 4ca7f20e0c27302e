//! The reasons why a desk is refused.

ghost use Rattle.std.specs.Prelude.{◌≡◌};

use thiserror::Error;

/// A reason why a desk is refused. The first reason that applies is returned, in this order.
#[derive(Clone, Copy, Debug, PartialEq, Eq, Error)]
pub enum DeskFault {
    /// G01: there are more than 1,000,000 jobs.
    #[error("G01 TooManyJobs")]
    TooManyJobs,
    /// G02: there is no worker, or there are more than 64.
    #[error("G02 TooManyWorkers")]
    TooManyWorkers,
    /// G04: memory ran out.
    #[error("G04 Memory")]
    Memory,
}
