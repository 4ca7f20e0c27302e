//! The four kinds of atomic step on a desk's two words. Nothing else reads or writes the words.

ghost use Rattle.std.specs.Prelude.{◌≡◌, ◌<◌, All, false};
ghost use Rattle.campaign_desk.specs.Knowledge.{after_look, after_draw, after_lower, after_bound, IsLeastFor};
ghost use Rattle.campaign_desk.specs.Views.{seat_of, one_seat, HoldsOneSeat, IsPassOf};
ghost use Rattle.campaign_desk.specs.Steps.{IsLook, IsDraw, IsLower, IsBound};

use crate::knowledge::{DeskRule, Terms, View};
use atomic_table::{Play, Seat, Shared};

/// The two words: word 0 is the next number, and word 1 the bound.
pub(crate) type Words = Shared<(), View, Terms, DeskRule>;

/// A pass, which takes steps on the words for the seats of its view.
pub(crate) type Pass = Seat<(), View>;

/// A load of the next number.
struct Look;

impl Play<(), View> for Look {
    ghost then = { IsLook };
}

/// An addition of one to the next number.
struct Draw;

impl Play<(), View> for Draw {
    ghost then = { IsDraw };
}

/// A minimum of the bound and a number.
struct Lower;

impl Play<(), View> for Lower {
    ghost then = { IsLower };
}

/// A load of the bound.
struct Bound;

impl Play<(), View> for Bound {
    ghost then = { IsBound };
}

/// Returns the next number, in one load.
pub(crate) fn load_next(words: &Words, pass: &mut Pass) -> u64
    requires words { IsPassOf words.now.table_id pass.old.table_id }
    requires one { HoldsOneSeat pass.old.me }
    ensures table { pass.new.table_id ≡ pass.old.table_id }
    ensures look { pass.new.me ≡ one_seat (after_look (seat_of pass.old.me.0) result) }
{
    words.load::<Look>(pass, 0)
}

/// Returns the next number and adds one to it, in one `fetch_add`.
pub(crate) fn draw_next(words: &Words, pass: &mut Pass) -> u64
    requires words { IsPassOf words.now.table_id pass.old.table_id }
    requires one { HoldsOneSeat pass.old.me }
    requires left { (seat_of pass.old.me.0).is_done ≡ false }
    ensures table { pass.new.table_id ≡ pass.old.table_id }
    ensures draw { pass.new.me ≡ one_seat (after_draw (seat_of pass.old.me.0) result) }
    ensures above { All (λ x. x < result) (seat_of pass.old.me.0).draws }
{
    words.fetch_add::<Draw>(pass, 0, 1)
}

/// Lowers the bound to a number, if that is less, in one `fetch_min`.
pub(crate) fn lower_bound(words: &Words, pass: &mut Pass, number: u64)
    requires words { IsPassOf words.now.table_id pass.old.table_id }
    requires one { HoldsOneSeat pass.old.me }
    ensures table { pass.new.table_id ≡ pass.old.table_id }
    ensures lower { pass.new.me ≡ one_seat (after_lower (seat_of pass.old.me.0) number) }
{
    words.fetch_min::<Lower>(pass, 1, number);
}

/// Returns the bound, in one load.
pub(crate) fn load_bound(words: &Words, pass: &mut Pass) -> u64
    requires words { IsPassOf words.now.table_id pass.old.table_id }
    requires one { HoldsOneSeat pass.old.me }
    ensures table { pass.new.table_id ≡ pass.old.table_id }
    ensures look { pass.new.me ≡ one_seat (after_bound (seat_of pass.old.me.0) result) }
    ensures least { IsLeastFor (seat_of pass.old.me.0) result }
{
    words.load::<Bound>(pass, 1)
}
