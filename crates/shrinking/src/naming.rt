//! The departures that name the choices of a run.

ghost use Rattle.std.specs.Prelude.{◌≡◌, ◌++◌, [], IfOk, OnOk};
ghost use Rattle.departures.specs.Departures.{is_just, name_of, named};
ghost use Rattle.explore_jobs.specs.Children.{turns_in};
ghost use Rattle.runs.specs.Choices.{choices_from};

use departures::Departure;
use explore_jobs::default_of;
use machine::{Machine, ThreadId};
use schedule::Chooser;
use std::alloc::{AllocError, Global};
use trace::Recording;

/// Appends the departure that names a choice at a position, unless the choice is the default.
fn push_named(
    departures: &mut Vec<Departure>,
    position: u64,
    thread: ThreadId,
    default: Option<ThreadId>,
) -> Result<(), AllocError>
    ensures { OnOk result (departures.new.items
        ≡ departures.old.items ++ named (is_just default thread) position thread []) }
{
    if let Some(usual) = default
        && usual == thread
    {
        return Ok(());
    }
    departures.push(Departure { position, thread })?;
    Ok(())
}

/// Returns the departures that name the choices of a chooser, at most `most` of them: those that aren't the default. The
/// machine takes their turns. Waits for no other thread.
///
/// # Errors
///
/// Memory ran out.
pub fn departures_of(
    alloc: Global,
    machine: &mut Machine<'_>,
    chooser: &mut Chooser,
    most: u64,
) -> Result<Vec<Departure>, AllocError>
    ensures { IfOk result (λ departures. departures.items
        ≡ name_of (turns_in machine.old) 0 machine.old.state 0
        (choices_from most chooser.old machine.old)) }
{
    let mut departures = Vec::new(alloc);
    let mut recording = Recording::of_nothing();
    let mut last = 0;
    for position in 0..most {
        let default = default_of(machine, last);
        let Some(thread) = chooser.next(machine) else {
            return Ok(departures);
        };
        push_named(&mut departures, position, thread, default)?;
        machine.step_recorded(thread, &mut recording)?;
        last = thread;
    }
    Ok(departures)
}
