//! Finds the events of a trace, by their numbers from 1.

ghost use Rattle.std.specs.Prelude.{◌≡◌, IfOk, take};
ghost use Rattle.velodrome.specs.Transactions.{is_event};
ghost use Rattle.report.specs.CycleTexts.{event_places, events_of_transaction};

use jvms_machine::trace::Item;
use shared_data::shared::Shared;
use std::alloc::{AllocError, Global};

/// Decides whether an item is an event, and not a mark.
pub fn is_event(item: &Item) -> bool
    ensures { result ≡ is_event item.now }
{
    !matches!(item, Item::Enter { .. } | Item::Exit { .. })
}

/// Returns the first `count` items of a list, or all if there are no more.
pub fn first<T>(items: &[T], count: usize) -> &[T]
    ensures { result.now ≡ take count items.now }
{
    if items.len() <= count {
        return items;
    }
    items.split_at(count).0
}

/// Returns the places of the events among items, from 0.
pub(crate) fn event_places(alloc: Global, items: &[Shared<Item>]) -> Result<Vec<usize>, AllocError>
    ensures { IfOk result (λ places. places.items ≡ event_places items.now) }
{
    let mut places = Vec::new(alloc);
    for (place, item) in items.iter().enumerate() {
        if is_event(item.get()) {
            places.push(place)?;
        }
    }
    Ok(places)
}

/// Returns the numbers of a transaction's events. `transactions` has the transaction of each event.
pub(crate) fn events_of_transaction(
    alloc: Global,
    transaction: u64,
    transactions: &[u64],
) -> Result<Vec<u64>, AllocError>
    ensures { IfOk result
        (λ numbers. numbers.items ≡ events_of_transaction transaction transactions.now) }
{
    let mut numbers = Vec::new(alloc);
    for (place, other) in transactions.iter().enumerate() {
        if *other == transaction {
            numbers.push(place as u64 + 1)?;
        }
    }
    Ok(numbers)
}
