//! The children of a job: schedules with one more departure, at a later position.

ghost use Rattle.std.specs.Prelude.{ℕ, Bool, List, ◌≡◌, ◌-◌, ◌++◌, ◌==◌, [], ◌∷◌, length, IfOk, OnOk};
ghost use Rattle.departures.specs.Departures.{chosen_at, default_of, first_in, left_at};
ghost use Rattle.departures.specs.Jobs.{children_here, children_of, other_if, others_in};
ghost use Rattle.explore_jobs.specs.Children.{stays_in, turns_in, with_each};
ghost use Rattle.departures.specs.declared.departure.Departure.{Departure};
ghost use Rattle.jvms_machine.specs.State.{State};

use crate::staying::{can_take, stays};
use atom_spec::Spec;
use campaign_jobs::machine::{Machine, ThreadId};
use departures::Departure;
use std::alloc::{AllocError, Global};
use trace::Recording;

/// Returns the number of threads.
fn thread_count(machine: &Machine<'_>) -> u32
    ensures { result ≡ length machine.now.state.threads }
{
    machine.state_is_sound();
    let most = machine.limits().threads;
    let count = machine.thread_count();
    prove!(count <= most as usize);
    count as u32
}

/// Returns the first enabled thread from one number up to another.
fn first_between(machine: &Machine<'_>, from: ThreadId, to: ThreadId) -> Option<ThreadId>
    ensures { result ≡ first_in (turns_in machine.now) machine.now.state from (to - from) }
{
    for thread in from..to {
        if can_take(machine, thread) {
            return Some(thread);
        }
    }
    None
}

/// Returns the default: the last thread while it is enabled, else the next one that is, round to the least.
#[tactic(auto, unfolding(departures::specs::Departures::default_of))]
pub fn default_of(machine: &Machine<'_>, last: ThreadId) -> Option<ThreadId>
    ensures { result ≡ default_of (turns_in machine.now) machine.now.state last }
{
    let threads = thread_count(machine);
    match first_between(machine, last, threads) {
        Some(thread) => Some(thread),
        None => first_between(machine, 0, threads),
    }
}

/// A choice at a position, and the departures that are left after it.
#[derive(Clone, Copy)]
struct Choice<'a> {
    thread: ThreadId,
    left: &'a [Departure],
}

/// Returns the choice at a position, where the default is known: the first departure that is left, if it is there.
fn choose(left: &[Departure], position: u64, usual: ThreadId) -> Choice<'_>
    ensures thread { result.thread ≡ chosen_at position usual left.now }
    ensures left { result.left.now ≡ left_at position left.now }
{
    if let Some((first, later)) = left.split_first()
        && first.position == position
    {
        return Choice {
            thread: first.thread,
            left: later,
        };
    }
    Choice {
        thread: usual,
        left,
    }
}

/// A position at which children may depart: the number of turns before it, the last thread, and the job's own choice.
#[derive(Clone, Copy)]
struct Place {
    position: u64,
    last: ThreadId,
    choice: ThreadId,
}

/// Appends the departure to a thread, if it is enabled and isn't the job's own choice.
fn push_other(
    machine: &Machine<'_>,
    place: Place,
    thread: ThreadId,
    added: &mut Vec<Departure>,
) -> Result<(), AllocError>
    ensures { (departures : List Departure) → OnOk result
        (with_each departures added.new.items ≡ with_each departures added.old.items
        ++ other_if ((turns_in machine.now).is_enabled machine.now.state thread) (thread == place.choice)
        (departures ++ record { position = place.position; thread = thread } ∷ []) []) }
{
    if thread != place.choice && can_take(machine, thread) {
        added.push(Departure {
            position: place.position,
            thread,
        })?;
    }
    Ok(())
}

/// Appends a departure for each enabled thread that isn't the job's own choice.
fn push_others(
    machine: &Machine<'_>,
    place: Place,
    added: &mut Vec<Departure>,
) -> Result<(), AllocError>
    ensures { (stays : State → ℕ → Bool) (departures : List Departure) → OnOk result
        (with_each departures added.new.items ≡ with_each departures added.old.items
        ++ others_in (turns_in machine.now) stays departures place.position
        machine.now.state place.choice 0 (length machine.now.state.threads)) }
{
    for thread in 0..thread_count(machine) {
        push_other(machine, place, thread, added)?;
    }
    Ok(())
}

/// Appends the departures at a position: none before the last one of the job, or where the last thread stays.
fn push_here(
    machine: &Machine<'_>,
    within: &Spec,
    left: &[Departure],
    place: Place,
    added: &mut Vec<Departure>,
) -> Result<(), AllocError>
    ensures { (departures : List Departure) → OnOk result
        (with_each departures added.new.items ≡ with_each departures added.old.items
        ++ children_here (turns_in machine.now) (stays_in within.now machine.now) departures place.position
        machine.now.state place.last place.choice left.now) }
{
    if !left.is_empty() {
        return Ok(());
    }
    if stays(machine, within, place.last) {
        return Ok(());
    }
    push_others(machine, place, added)
}

/// Returns the departures that the children of a job add, by position and thread. A thread that stays isn't left. The machine
/// takes the job's turns, at most `most` of them.
pub fn added_departures(
    alloc: Global,
    machine: &mut Machine<'_>,
    within: &Spec,
    departures: &[Departure],
    most: u64,
) -> Result<Vec<Departure>, AllocError>
    ensures { IfOk result (λ added. with_each departures.now added.items
        ≡ children_of (turns_in machine.old) (stays_in within.now machine.old) most machine.old.state 0 departures.now) }
{
    let mut added = Vec::new(alloc);
    let mut recording = Recording::of_nothing();
    let mut left = departures;
    let mut last = 0;
    for position in 0..most {
        let Some(usual) = default_of(machine, last) else {
            return Ok(added);
        };
        let choice = choose(left, position, usual);
        let thread = choice.thread;
        let place = Place {
            position,
            last,
            choice: thread,
        };
        push_here(machine, within, left, place, &mut added)?;
        machine.step_recorded(thread, &mut recording)?;
        last = thread;
        left = choice.left;
    }
    Ok(added)
}
