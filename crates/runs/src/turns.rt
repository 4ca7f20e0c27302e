//! Turns by a chooser, with their choices and outcomes.

ghost use Rattle.std.specs.Prelude.{◌≡◌, ◌++◌, replicate, IfOk, OnOk, OnErr};
ghost use Rattle.machine.specs.Machine.{with_state};
ghost use Rattle.machine.specs.Runs.{run_of};
ghost use Rattle.runs.specs.Choices.{choices_from, chooser_after_choices, BrokeOff};
ghost use Rattle.trace.specs.Recording.{with_items};

use crate::kept::Kept;
use crate::turn::{TurnsOn, take_consecutive_turns, take_turn};
use machine::{Machine, ThreadId};
use outcome_list::OutcomeList;
use schedule::Chooser;
use shared_data::items::Items;
use std::alloc::{AllocError, Global};
use trace::Recording;

/// The turns of a run, in order.
#[derive(Debug, Drop)]
pub struct Turns {
    /// The thread of each turn.
    pub choices: Items<ThreadId>,
    /// The outcome of each turn.
    pub outcomes: OutcomeList,
}

/// Returns the turns with these choices and outcomes.
fn turns_of(choices: Vec<ThreadId>, outcomes: OutcomeList) -> Turns
    ensures choices { result.choices ≡ choices.items }
    ensures outcomes { result.outcomes ≡ outcomes }
{
    Turns {
        choices: Items::from_vec(choices),
        outcomes,
    }
}

/// Appends the choices of consecutive turns: their thread, once for each.
#[tactic(auto, using(crate::proofs::TurnsOn::one_more))]
fn put_choices(choices: &mut Vec<ThreadId>, on: TurnsOn) -> Result<(), AllocError>
    ensures { OnOk result (choices.new.items ≡ choices.old.items ++ replicate on.times on.thread) }
{
    choices.reserve(on.times as usize)?;
    for _ in 0..on.times {
        choices.push_reserved(on.thread);
    }
    Ok(())
}

/// Takes the turns that a chooser gives, at most `most` of them, and returns them. Appends their items to the
/// recording, if it keeps any.
///
/// Each choice is given for the machine after the turns before. The run ends once the chooser gives none.
///
/// # Errors
///
/// Memory ran out. The turns of some first choices were taken, maybe of none or of all. The chooser has given these
/// choices, and maybe one more.
pub fn take_turns(
    alloc: Global,
    machine: &mut Machine<'_>,
    chooser: &mut Chooser,
    most: u64,
    recording: &mut Recording,
) -> Result<Turns, AllocError>
    ensures choices { IfOk result (λ r. r.choices ≡ choices_from most chooser.old machine.old) }
    ensures chooser { OnOk result
        (chooser.new ≡ chooser_after_choices most chooser.old machine.old) }
    // The outcomes, the machine and the items are those of the run of these choices, by the instruction table.
    ensures outcomes { IfOk result (λ r. r.outcomes ≡ (run_of machine.old r.choices).outcomes) }
    ensures state { IfOk result
        (λ r. machine.new ≡ with_state machine.old (run_of machine.old r.choices).state) }
    ensures items { IfOk result
        (λ r. recording.new ≡ with_items recording.old (run_of machine.old r.choices).items) }
    // Without memory, the turns of some first choices were taken.
    ensures broken { OnErr result (BrokeOff machine.old chooser.old
        most machine.new chooser.new recording.old recording.new) }
{
    let mut choices = Vec::new(alloc);
    let mut outcomes = OutcomeList::new(alloc);
    let mut kept = Kept::new(alloc);
    let mut made = 0;
    while made < most {
        let on = take_consecutive_turns(machine, chooser, &mut kept, most - made, recording);
        put_choices(&mut choices, on)?;
        outcomes.push_ran(on.times as usize)?;
        made += on.times;
        if made == most {
            return Ok(turns_of(choices, outcomes));
        }
        let Some((thread, outcome)) = take_turn(machine, chooser, &mut kept, recording)? else {
            return Ok(turns_of(choices, outcomes));
        };
        choices.push(thread)?;
        outcomes.push(outcome)?;
        made += 1;
    }
    Ok(turns_of(choices, outcomes))
}
