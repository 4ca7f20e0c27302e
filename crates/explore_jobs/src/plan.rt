//! The plan of an exploration.

ghost use Rattle.std.specs.Prelude.{◌≡◌};
ghost use Rattle.explore_jobs.specs.Plans.{fits};

use atom_spec::Spec;
use campaign_jobs::machine::admits;
use exploration_parts::Part;
use jvms_machine::machine::{Entry, Limits};
use program::Program;
use turn_limit::TurnLimit;

/// The plan of an exploration: all jobs have one entry and one specification, and leave threads in the same methods.
#[derive(Drop)]
pub struct Plan {
    /// The entry at which each job begins.
    pub entry: Entry,
    /// The limits of each job's machine.
    pub limits: Limits,
    /// The limit on the turns of each job.
    pub most: TurnLimit,
    /// The specification of which methods are to be atomic. Without a line, each run is atomic.
    pub spec: Spec,
    /// Lines with the patterns of the methods in which threads may be left. Without a line they are left wherever their next
    /// turn isn't local.
    pub within: Spec,
    /// The part of the schedules that are run. `None` means all.
    pub part: Option<Part>,
}

impl Plan {
    /// Returns whether a machine of this program can be made with the plan's entry and limits. Takes no memory.
    pub fn fits(&self, program: &Program) -> bool
        ensures { result ≡ fits program.now self.now }
    {
        admits(program, self.limits, &self.entry)
    }
}
