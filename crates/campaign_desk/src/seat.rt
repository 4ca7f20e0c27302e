//! A worker's seat at a desk, split off the pass of all seats and later joined to it.

ghost use Rattle.std.specs.Prelude.{◌≡◌, ◌<◌, ◌≤◌, [], ◌∷◌, ◌++◌, All, vec_capacity};
ghost use Rattle.campaign_desk.specs.Knowledge.{opening_seats};
ghost use Rattle.campaign_desk.specs.Views.{IsPassOf};
ghost use Rattle.campaign_desk.specs.Desk.{new_seats, knowledge_of};

use crate::knowledge::Seats;
use crate::steps::{Pass, Words};
use std::marker::Model;

/// A seat, at which one worker takes steps. Contracts see what these steps returned.
#[derive(Drop)]
pub struct Seat {
    pub(crate) pass: Pass,
    pub(crate) is_done: bool,
}

impl Model for Seat {
    ghost use Rattle.std.specs.Prelude.{◌≡◌};
    ghost use Rattle.campaign_desk.specs.Views.{seat_of, HoldsOneSeat};
    ghost use Rattle.campaign_desk.specs.Desk.{SeatValue, seat_at};

    ghost Value = { SeatValue };

    ghost view = { λ s. seat_at s.pass.table_id (seat_of s.pass.me.0) };

    ghost invariant = { λ s. HoldsOneSeat s.pass.me × (s.is_done ≡ (seat_of s.pass.me.0).is_done) };
}

/// The result of a claim: what a worker does next.
#[derive(Clone, Copy, Debug, PartialEq, Eq)]
pub enum Claim {
    /// The next job to run, by its number.
    Job(u64),
    /// No job is left.
    Done,
}

/// Splits a pass of all seats, and pushes each into a vector with capacity for them.
pub(crate) fn split_seats(
    words: &Words,
    mut pass: Pass,
    mut seats: Vec<Seat>,
    workers: u64,
) -> Vec<Seat>
    requires words { IsPassOf words.now.table_id pass.table_id }
    requires all { pass.me ≡ (opening_seats words.now.key.jobs workers, []) }
    requires room { (seats.items ≡ []) × (0 < workers) × (workers ≤ vec_capacity seats) }
    ensures { result.items ≡ new_seats words.now.table_id words.now.key.jobs workers }
{
    for _ in 1..workers {
        seats.push_reserved(Seat {
            pass: words.split_seat::<Seats>(&mut pass),
            is_done: false,
        });
    }
    seats.push_reserved(Seat {
        pass,
        is_done: false,
    });
    seats
}

/// Joins all seats into one pass, in their order.
pub(crate) fn join_seats(words: &Words, mut seats: Vec<Seat>, last: Seat) -> Pass
    requires words { words.now.table_id.words ≡ 2 }
    requires seats { All (λ s. s.table ≡ words.now.table_id) seats.items }
    requires last { last.table ≡ words.now.table_id }
    ensures table { result.table_id ≡ words.now.table_id }
    ensures seats { result.me ≡ (knowledge_of seats.items ++ last.knowledge ∷ [], []) }
{
    let Seat {
        pass: mut all,
        is_done: _,
    } = last;
    while let Some(seat) = seats.pop() {
        let Seat { pass, is_done: _ } = seat;
        words.join_seat::<Seats>(&mut all, pass);
    }
    all
}
