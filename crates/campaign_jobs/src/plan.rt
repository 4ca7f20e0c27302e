//! The plan of a campaign.

ghost use Rattle.std.specs.Prelude.{◌≡◌};
ghost use Rattle.program_runs.specs.schedule.Choosers.{chooser_of_schedule};
ghost use Rattle.campaign_jobs.specs.Plans.{fits, schedule_of, stream_of};

use crate::choosing::Choosing;
use atom_spec::Spec;
use jvms_machine::machine::{Entry, Limits};
use program::Program;
use program_runs::machine::admits;
use program_runs::schedule::Chooser;
use turn_limit::TurnLimit;

/// The plan of a campaign: its jobs are numbered from 0, and all have one entry and one specification.
#[derive(Drop)]
pub struct Plan {
    /// The entry at which each job begins.
    pub entry: Entry,
    /// The limits of each job's machine.
    pub limits: Limits,
    /// The number of jobs.
    pub jobs: u64,
    /// The stream of the first job's random words. For a part of a campaign it is the number of the part's first job.
    pub first: u64,
    /// The state of the generator of random words.
    pub seed: u64,
    /// How the jobs choose the thread of each turn.
    pub choosing: Choosing,
    /// The limit on the turns of each job.
    pub most: TurnLimit,
    /// The specification of which methods are to be atomic.
    pub spec: Spec,
    /// `true` if the campaign stops at the first job with a cycle.
    pub stop: bool,
}

impl Plan {
    /// Returns whether a machine of this program can be made with the plan's entry and limits. Takes no memory.
    pub fn fits(&self, program: &Program) -> bool
        ensures { result ≡ fits program.now self.now }
    {
        admits(program, self.limits, &self.entry)
    }

    /// Returns the stream of a job's random words: streams are counted from the first job's, and 0 follows the last.
    pub fn stream_of(&self, number: u64) -> u64
        ensures { result ≡ stream_of self.now number }
    {
        self.first.wrapping_add(number)
    }

    /// Returns the chooser of a job, which is that of the job's schedule.
    pub(crate) fn chooser_of(&self, number: u64) -> Chooser
        ensures { result ≡ chooser_of_schedule (schedule_of self.now number) }
    {
        let stream = self.stream_of(number);
        match self.choosing {
            Choosing::Random => Chooser::seeded(self.seed, stream),
            Choosing::Priorities { depth, turns } => {
                Chooser::ranked(self.seed, stream, depth, turns)
            }
        }
    }
}
