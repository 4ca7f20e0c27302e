//! The knowledge of a seat, and the rule of the table. Only proofs use them, and no value of them exists at run time.

ghost use Rattle.campaign_desk.specs.Reached.{IsReachedTable};
ghost use Rattle.campaign_desk.specs.Views.{first_view, first_seat, other_seats, joined_seats, no_seats};

use atomic_table::{Join, Split, TableRule};
use std::collections::LinkedList;

/// The knowledge of a seat: what its steps have returned.
pub struct Knowledge {
    /// The number of jobs of its desk.
    pub jobs: u64,
    /// The numbers that the seat drew, in order.
    pub draws: LinkedList<u64>,
    /// The numbers to which the seat lowered the bound, in order.
    pub lowerings: LinkedList<u64>,
    /// The bounds that the seat read, in order.
    pub bounds: LinkedList<u64>,
    /// `true` if the seat knows that no job is left.
    pub is_done: bool,
}

/// A view: the knowledge of the seats of a pass. It has one seat, several, or none after another pass took them.
pub type View = LinkedList<Knowledge>;

/// The terms of a desk: its numbers of jobs and workers.
#[derive(Drop)]
pub struct Terms {
    /// The number of jobs.
    pub jobs: u64,
    /// The number of workers.
    pub workers: u64,
}

/// The rule of the table: some list of events leads to the words and to all views.
pub struct DeskRule;

impl TableRule<(), View, Terms> for DeskRule {
    ghost holds = { IsReachedTable };

    ghost first = { first_view };
}

/// The splitting and joining of passes. A split takes the first seat of a pass, and a join takes all seats of another
/// one.
pub struct Seats;

impl Split<View> for Seats {
    ghost left = { other_seats };

    ghost right = { first_seat };
}

impl Join<View> for Seats {
    ghost both = { joined_seats };

    ghost spent = { no_seats };
}
