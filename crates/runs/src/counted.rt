//! Turns by a chooser, which are counted and not kept.

ghost use Rattle.std.specs.Prelude.{◌≡◌, length, IfOk, OnOk, OnErr};
ghost use Rattle.machine.specs.Machine.{with_state};
ghost use Rattle.machine.specs.Runs.{run_of};
ghost use Rattle.runs.specs.Choices.{choices_from, chooser_after_choices, BrokeOff};
ghost use Rattle.trace.specs.Recording.{with_items};

use crate::kept::Kept;
use crate::turn::{take_consecutive_turns, take_turn};
use machine::Machine;
use schedule::Chooser;
use std::alloc::{AllocError, Global};
use trace::Recording;

/// Takes the turns that a chooser gives, at most `most` of them, and returns their number. Unlike `take_turns`,
/// keeps neither their choices nor their outcomes.
///
/// # Errors
///
/// Memory ran out. The turns of some first choices were taken, maybe of none or of all. The chooser has given these
/// choices, and maybe one more.
pub fn count_turns(
    alloc: Global,
    machine: &mut Machine<'_>,
    chooser: &mut Chooser,
    most: u64,
    recording: &mut Recording,
) -> Result<u64, AllocError>
    ensures count { IfOk result (λ n. n ≡ length (choices_from most chooser.old machine.old)) }
    ensures chooser { OnOk result
        (chooser.new ≡ chooser_after_choices most chooser.old machine.old) }
    // The machine and the items are those of the run of these choices, by the instruction table.
    ensures state { OnOk result (machine.new ≡ with_state machine.old
        (run_of machine.old (choices_from most chooser.old machine.old)).state) }
    ensures items { OnOk result (recording.new ≡ with_items recording.old
        (run_of machine.old (choices_from most chooser.old machine.old)).items) }
    // Without memory, the turns of some first choices were taken.
    ensures broken { OnErr result (BrokeOff machine.old chooser.old
        most machine.new chooser.new recording.old recording.new) }
{
    let mut kept = Kept::new(alloc);
    let mut made = 0;
    while made < most {
        let on = take_consecutive_turns(machine, chooser, &mut kept, most - made, recording);
        made += on.times;
        if made == most {
            return Ok(made);
        }
        let Some(_taken) = take_turn(machine, chooser, &mut kept, recording)? else {
            return Ok(made);
        };
        made += 1;
    }
    Ok(made)
}
