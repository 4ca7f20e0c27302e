//! Runs: consecutive turns by a list of choices.

ghost use Rattle.std.specs.Prelude.{◌≡◌, ◌<◌, take, length, IfOk, IfErr, Some};
ghost use Rattle.machine.specs.Runs.{IsRun};

use crate::machine::Machine;
use jvms_machine::machine::{Outcome, ThreadId};
use trace::{Recording, Trace};

/// The error that memory ran out in a run. The number of turns taken is that of the outcomes.
#[derive(Debug, Drop)]
pub struct RunStop {
    /// The outcomes of the turns that were taken.
    pub outcomes: Vec<Outcome>,
}

impl Machine<'_> {
    /// Takes the turns of these choices of threads, and returns their outcomes. Their items are appended to the trace.
    /// If memory runs out, machine and trace are those after as many choices as the `RunStop` has outcomes.
    pub fn run(&mut self, choices: &[ThreadId], trace: &mut Trace) -> Result<Vec<Outcome>, RunStop>
        ensures run { IfOk result
            (λ v. IsRun self.old choices.now v.items self.new (Some trace.old) (Some trace.new)) }
        ensures fewer { IfErr result (λ s. length s.outcomes.items < length choices.now) }
        ensures stop { IfErr result (λ s. IsRun self.old
            (take (length s.outcomes.items) choices.now) s.outcomes.items self.new
            (Some trace.old) (Some trace.new)) }
    {
        let mut recording = Recording::taken_from(self.parts.alloc, trace);
        let outcomes = self.run_recorded(choices, &mut recording);
        recording.give_back(trace);
        outcomes
    }

    /// Takes the turns of these choices as `run` does, and records their items if items are recorded.
    fn run_recorded(
        &mut self,
        choices: &[ThreadId],
        recording: &mut Recording,
    ) -> Result<Vec<Outcome>, RunStop>
        ensures run { IfOk result
            (λ v. IsRun self.old choices.now v.items self.new recording.old recording.new) }
        ensures fewer { IfErr result (λ s. length s.outcomes.items < length choices.now) }
        ensures stop { IfErr result (λ s. IsRun self.old (take (length s.outcomes.items)
            choices.now) s.outcomes.items self.new recording.old recording.new) }
    {
        let mut outcomes = Vec::new(self.parts.alloc);
        for choice in choices {
            if outcomes.push(Outcome::NoThread).is_err() {
                return Err(RunStop { outcomes });
            }
            match self.step_recorded(*choice, recording) {
                Ok(outcome) => {
                    let last = outcomes.len() - 1;
                    outcomes[last] = outcome;
                }
                Err(_) => {
                    outcomes.pop();
                    return Err(RunStop { outcomes });
                }
            }
        }
        Ok(outcomes)
    }
}
