//! Access to the table's entries by index.

ghost use Rattle.std.specs.Prelude.{◌≡◌, IfSome};
ghost use Rattle.accesses.specs.Accesses.{OfThread};
ghost use Rattle.accesses.specs.Kept.{kept_at, kept_in};
ghost use Rattle.accesses.specs.Links.{AreAt};
ghost use Rattle.accesses.specs.Rooms.{IsEntryOf, IsTouchedAt};

use crate::lasts::PlaceAccesses;
use crate::place::is_thread;
use crate::table::Table;
use crate::touch::is_touched;
use jvms_machine::machine::ThreadId;
use jvms_machine::trace::Item;

/// Returns the accesses of an entry, if it is the thread's.
pub fn of_thread<'m>(lasts: &'m Table, index: usize, thread: ThreadId) -> Option<&'m PlaceAccesses>
    ensures entry { IfSome result (λ l. IsEntryOf lasts.now.entries index (OfThread thread)) }
    ensures kept { IfSome result (λ l. AreAt (kept_in lasts.now.entries)
        (OfThread thread) (kept_at (OfThread thread) l.now)) }
{
    let (place, found) = lasts.get(index)?;
    if is_thread(place, thread) {
        Some(found)
    } else {
        None
    }
}

/// Returns the accesses of an entry, if it is of what an item touches.
pub fn of_touched<'m>(lasts: &'m Table, index: usize, item: &Item) -> Option<&'m PlaceAccesses>
    ensures { IfSome result (λ l. IsTouchedAt lasts.now.entries index item.now l.now) }
{
    let (place, found) = lasts.get(index)?;
    if is_touched(item, place) {
        Some(found)
    } else {
        None
    }
}
