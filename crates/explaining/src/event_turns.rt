//! The turn of each event of a run, and the place of its thread.

ghost use Rattle.std.specs.Prelude.{◌≡◌, ◌++◌, [], IfOk, OnOk, map};
ghost use Rattle.std.specs.List.{filter};
ghost use Rattle.std.specs.Option.{option_map};
ghost use Rattle.machine.specs.Machine.{transition_of, with_state};
ghost use Rattle.machine.specs.Runs.{run_of};
ghost use Rattle.runs.specs.Choices.{after_turn};
ghost use Rattle.velodrome.specs.Transactions.{is_event};
ghost use Rattle.machine.specs.Views.{frame_of};
ghost use Rattle.explaining.specs.EventTurns.{call_place, event_turns, turn_at};

use jvms_machine::machine::ThreadId;
use jvms_machine::trace::Item;
use jvms_program::number::MethodNumber;
use machine::{FrameView, Machine};
use report::is_event;
use std::alloc::{AllocError, Global};
use trace::Trace;

/// The turn of an event, and the method and the instruction that made it.
#[derive(Clone, Copy, Debug)]
pub struct EventTurn {
    /// The turn, from 1.
    pub turn: u64,
    /// The method and the place of the instruction. It is `None` if the thread was in no call.
    pub place: Option<(MethodNumber, usize)>,
}

/// Returns the method and the next instruction of a call.
fn call_place(frame: &Option<FrameView<'_, '_>>) -> Option<(MethodNumber, usize)>
    ensures { result ≡ call_place (option_map frame_of frame.now) }
{
    match frame {
        None => None,
        Some(FrameView::Initialisation { .. }) => None,
        Some(FrameView::Call(call)) => Some((call.method(), call.place())),
    }
}

/// Returns the turn and the place of each event of a thread's turn.
fn turn_at(turn: u64, machine: &Machine<'_>, thread: ThreadId) -> EventTurn
    ensures { result ≡ turn_at turn machine.now thread }
{
    EventTurn {
        turn,
        place: call_place(&machine.frame(thread, 0)),
    }
}

/// Appends the same entry for each event among items.
fn push_events(
    events: &mut Vec<EventTurn>,
    event: EventTurn,
    items: &[Item],
) -> Result<(), AllocError>
    ensures { OnOk result (events.new.items
        ≡ events.old.items ++ map (λ i. event) (filter is_event items.now)) }
{
    for item in items {
        if is_event(item) {
            events.push(event)?;
        }
    }
    Ok(())
}

/// Takes the turn of a thread, and appends its events. The trace is empty before and after, so that its memory is
/// reused.
fn take_turn(
    machine: &mut Machine<'_>,
    thread: ThreadId,
    turn: u64,
    trace: &mut Trace,
    events: &mut Vec<EventTurn>,
) -> Result<(), AllocError>
    requires { trace.old ≡ [] }
    ensures trace { OnOk result (trace.new ≡ []) }
    ensures machine { OnOk result (machine.new ≡ after_turn machine.old thread) }
    ensures events { OnOk result
        (events.new.items ≡ events.old.items ++ map (λ i. turn_at turn machine.old thread)
        (filter is_event (transition_of machine.old thread).items)) }
{
    let event = turn_at(turn, machine, thread);
    machine.step(thread, trace)?;
    push_events(events, event, trace.items())?;
    trace.truncate(0);
    Ok(())
}

/// Takes the turns of choices, and returns the turn and the place of each event.
pub(crate) fn event_turns(
    alloc: Global,
    machine: &mut Machine<'_>,
    choices: &[ThreadId],
) -> Result<Vec<EventTurn>, AllocError>
    ensures events { IfOk result (λ events. events.items ≡ event_turns 1 machine.old choices.now) }
    ensures state { OnOk result (machine.new
        ≡ with_state machine.old (run_of machine.old choices.now).state) }
{
    let mut events = Vec::new(alloc);
    let mut trace = Trace::new(alloc);
    for (place, thread) in choices.iter().enumerate() {
        take_turn(machine, *thread, place as u64 + 1, &mut trace, &mut events)?;
    }
    Ok(events)
}

/// Returns the turns of events.
pub(crate) fn turns_of(alloc: Global, events: &[EventTurn]) -> Result<Vec<u64>, AllocError>
    ensures { IfOk result (λ turns. turns.items ≡ map (λ e. e.turn) events.now) }
{
    let mut turns = Vec::with_capacity(alloc, events.len())?;
    for event in events {
        turns.push(event.turn)?;
    }
    Ok(turns)
}
