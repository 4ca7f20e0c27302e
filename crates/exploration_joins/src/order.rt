//! Orders runs that fail by their departures.

ghost use Rattle.std.specs.Prelude.{◌≡◌, ◌<◌, length};
ghost use Rattle.std.specs.Cmp.Lexicographic.{slice_cmp};
ghost use Rattle.std.specs.List.{IsFirstBest};
ghost use Rattle.exploration_joins.specs.Orders.{comes_before, departure_order, failing_below, is_sooner};

use crate::found::Found;
use crate::part::PartText;
use departures::Departure;
use std::cmp::Ordering;

/// Compares departures by their positions, then by their threads.
fn departure_order(one: Departure, other: Departure) -> Ordering
    ensures { result ≡ departure_order one other }
{
    let positions = one.position.cmp(&other.position);
    positions.then(one.thread.cmp(&other.thread))
}

/// Compares runs departure by departure.
fn order_of_departures(one: &[Departure], other: &[Departure]) -> Ordering
    ensures { result ≡ slice_cmp departure_order one.now other.now }
{
    for (place, departure) in one.iter().enumerate() {
        let Some(same) = other.get(place) else {
            return Ordering::Greater;
        };
        let order = departure_order(*departure, *same);
        if order != Ordering::Equal {
            return order;
        }
    }
    one.len().cmp(&other.len())
}

/// Returns whether the run of some departures comes before that of others.
fn comes_before(one: &[Departure], other: &[Departure]) -> bool
    ensures { result ≡ comes_before one.now other.now }
{
    let counts = one.len().cmp(&other.len());
    counts.then(order_of_departures(one, other)).is_lt()
}

/// Returns whether a run was found to fail that has fewer departures than the levels, and it comes before the other, if there
/// is one.
fn is_sooner(one: &Found, other: &Found, levels: usize) -> bool
    ensures { result
        ≡ is_sooner (failing_below levels one.now) (failing_below levels other.now) }
{
    let Some(run) = one.failing_below(levels) else {
        return false;
    };
    let Some(other) = other.failing_below(levels) else {
        return true;
    };
    comes_before(run, other)
}

/// Returns the place of the first part that found a run that fails, has fewer departures than the levels, and comes before all
/// others of them. It is 0 if no part did.
pub(crate) fn first_failing(parts: &[PartText], levels: usize) -> usize
    requires { 0 < length parts.now }
    ensures { IsFirstBest (λ (one other : PartText). is_sooner (failing_below levels one.found)
        (failing_below levels other.found)) parts.now (length parts.now) result }
{
    let mut first = 0;
    for place in 1..parts.len() {
        if is_sooner(&parts[place].found, &parts[first].found, levels) {
            first = place;
        }
    }
    first
}
