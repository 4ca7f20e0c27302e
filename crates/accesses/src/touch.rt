//! The accesses of an item.

ghost use Rattle.std.specs.Prelude.{◌≡◌, IfOk};
ghost use Rattle.jvms_machine.specs.Events.{thread_of};
ghost use Rattle.accesses.specs.Accesses.{accesses_beside, OfMonitor, OfThread, beside_at, main_at};
ghost use Rattle.accesses.specs.Places.{place_of};
ghost use Rattle.accesses.specs.Touches.{access_of, touches, touches_at, has_main_touch};

use crate::place::{Place, is_monitor, is_thread, is_variable, share_variable};
use jvms_machine::machine::ThreadId;
use jvms_machine::trace::Item;
use std::alloc::AllocError;

/// An access: a place, and whether the access conflicts with every other one to it.
#[derive(Debug, Drop)]
pub struct Touch {
    /// The accessed place.
    pub place: Place,
    /// `true` for a main access, which conflicts with every other one to the place.
    pub is_main: bool,
}

/// Returns the thread of an item.
pub fn thread_of(item: &Item) -> ThreadId
    ensures { result ≡ thread_of item.now }
{
    match item {
        Item::Read { thread, .. } => *thread,
        Item::Write { thread, .. } => *thread,
        Item::Acquire { thread, .. } => *thread,
        Item::Release { thread, .. } => *thread,
        Item::Fork { thread, .. } => *thread,
        Item::Join { thread, .. } => *thread,
        Item::Enter { thread, .. } => *thread,
        Item::Exit { thread, .. } => *thread,
    }
}

/// Returns the access of an item to what it touches, if it touches something.
pub fn touched(item: &Item) -> Result<Option<Touch>, AllocError>
    ensures { IfOk result (λ o. touches o ≡ accesses_beside item.now) }
{
    match item {
        Item::Read { variable, .. } => Ok(Some(Touch {
            place: Place::OfVariable(share_variable(variable)?),
            is_main: false,
        })),
        Item::Write { variable, .. } => Ok(Some(Touch {
            place: Place::OfVariable(share_variable(variable)?),
            is_main: true,
        })),
        Item::Acquire { reference, .. } => Ok(Some(monitor(*reference))),
        Item::Release { reference, .. } => Ok(Some(monitor(*reference))),
        Item::Fork { started, .. } => Ok(Some(other_thread(*started))),
        Item::Join { ended, .. } => Ok(Some(other_thread(*ended))),
        _ => Ok(None),
    }
}

/// Decides whether an item touches a place.
pub fn is_touched(item: &Item, place: &Place) -> bool
    ensures { result ≡ touches_at item.now (place_of place.now) }
{
    match item {
        Item::Read { variable, .. } => is_variable(place, variable),
        Item::Write { variable, .. } => is_variable(place, variable),
        Item::Acquire { reference, .. } => is_monitor(place, *reference),
        Item::Release { reference, .. } => is_monitor(place, *reference),
        Item::Fork { started, .. } => is_thread(place, *started),
        Item::Join { ended, .. } => is_thread(place, *ended),
        Item::Enter { .. } => false,
        Item::Exit { .. } => false,
    }
}

/// Decides whether the access to what an item touches is a main one.
pub fn has_main_touch(item: &Item) -> bool
    ensures { result ≡ has_main_touch item.now }
{
    match item {
        Item::Write { .. } => true,
        Item::Acquire { .. } => true,
        Item::Release { .. } => true,
        _ => false,
    }
}

/// Returns a main access to an object's monitor.
fn monitor(reference: u32) -> Touch
    ensures { access_of result ≡ main_at (OfMonitor reference) }
{
    Touch {
        place: Place::OfMonitor(reference),
        is_main: true,
    }
}

/// Returns the access to a thread that an item starts, or whose end it waited for.
fn other_thread(thread: ThreadId) -> Touch
    ensures { access_of result ≡ beside_at (OfThread thread) }
{
    Touch {
        place: Place::OfThread(thread),
        is_main: false,
    }
}
