//! Changes to the order: transactions begin, get links, move back, and are dropped.

ghost use Rattle.std.specs.Prelude.{◌≡◌, ◌≢◌, ℕ, ◌+◌, ◌^◌, ◌<◌, ◌∷◌, ◌++◌, ◌==◌, [], true, false, not, length, get_or, OnOk, OnErr};
ghost use Rattle.std.specs.List.{IsDistinct, filter};
ghost use Rattle.atom_order.specs.Exits.{links_at, AreAdded, AreNoted, HasMoreExits, IsNoted};
ghost use Rattle.atom_order.specs.Keeping.{sides};
ghost use Rattle.atom_order.specs.Reaching.{is_among, ArePart, LeadForward};
ghost use Rattle.atom_order.specs.Slots.{live_of};

use super::LinkedOrder;
use crate::link::Link;
use crate::links::Links;
use crate::slots::{Exit, Slots};
use std::alloc::{AllocError, Global};

impl LinkedOrder {
    /// Begins the next transaction as a live one, with links into it. Without memory nothing changes.
    pub fn push(&mut self, links: Vec<Link>) -> Result<(), AllocError>
        ensures live { OnOk result
            (live_of self.new.slots ≡ live_of self.old.slots ++ length self.old.into ∷ []) }
        ensures into { OnOk result (self.new.into ≡ self.old.into ++ links.items ∷ []) }
        ensures err { OnErr result (self.new ≡ self.old) }
    {
        self.into.reserve(1)?;
        let transaction = self.into.len() as u64;
        note_exits(&mut self.slots, transaction, 0, links.as_slice())?;
        self.slots.push()?;
        self.into.push_reserved(Links::from_vec(links));
        Ok(())
    }

    /// Begins the next transaction as a dropped one. Without memory nothing changes.
    pub fn skip(&mut self, links: Vec<Link>) -> Result<(), AllocError>
        ensures live { OnOk result (live_of self.new.slots ≡ live_of self.old.slots) }
        ensures into { OnOk result (self.new.into ≡ self.old.into ++ links.items ∷ []) }
        ensures err { OnErr result (self.new ≡ self.old) }
    {
        self.into.reserve(1)?;
        self.slots.skip()?;
        self.into.push_reserved(Links::from_vec(links));
        Ok(())
    }

    /// Adds links into a live transaction. Without memory nothing changes.
    pub fn add_links(&mut self, transaction: u64, links: &[Link]) -> Result<(), AllocError>
        requires { is_among transaction (live_of self.old.slots) ≡ true }
        ensures live { live_of self.new.slots ≡ live_of self.old.slots }
        ensures into { OnOk result (AreAdded transaction links.now self.old.into self.new.into) }
        ensures err { OnErr result (self.new ≡ self.old) }
    {
        add(&mut self.slots, &mut self.into, transaction, links)
    }

    /// Adds links into a live transaction, and moves some after the others. Without memory nothing changes.
    pub fn add_and_move(
        &mut self,
        transaction: u64,
        links: &[Link],
        moved: &[u64],
    ) -> Result<(), AllocError>
        requires live { is_among transaction (live_of self.old.slots) ≡ true }
        requires distinct { IsDistinct (λ x y. x == y) (live_of self.old.slots) }
        requires forward { LeadForward (links_at self.old.into) (live_of self.old.slots) }
        requires part { ArePart moved.now (live_of self.old.slots) }
        ensures live { OnOk result (live_of self.new.slots
            ≡ sides (λ x. is_among x moved.now) (live_of self.old.slots)) }
        ensures into { OnOk result (AreAdded transaction links.now self.old.into self.new.into) }
        ensures err { OnErr result (self.new ≡ self.old) }
    {
        self.slots.reserve(moved.len())?;
        add(&mut self.slots, &mut self.into, transaction, links)?;
        self.slots.move_all(moved);
        self.slots.tidy();
        Ok(())
    }

    /// Drops live transactions, and the links into them.
    pub fn drop_all(&mut self, gone: &[u64])
        requires { LeadForward (links_at self.old.into) (live_of self.old.slots) }
        ensures live { live_of self.new.slots
            ≡ filter (λ x. not (is_among x gone.now)) (live_of self.old.slots) }
        ensures into { (y : ℕ) → is_among y gone.now ≡ false
            → links_at self.new.into y ≡ links_at self.old.into y }
        ensures len { length self.new.into ≡ length self.old.into }
    {
        self.slots.vacate_all(gone);
        forget(&mut self.into, gone, self.alloc);
        self.slots.tidy();
    }
}

/// Records an exit of a transaction, if it is live.
fn note_exit(slots: &mut Slots, from: u64, exit: Exit) -> Result<(), AllocError>
    ensures more { HasMoreExits slots.old.slots slots.new.slots }
    ensures noted { OnOk result (IsNoted from exit slots.new.slots) }
    ensures next { slots.new.next ≡ slots.old.next }
    ensures room { slots.new.room ≡ slots.old.room }
{
    match slots.rank_of(from) {
        Some(rank) => slots.note(rank, exit),
        None => Ok(()),
    }
}

/// Records links into a transaction as exits of those that they lead from. `first` links into it were there before.
fn note_exits(
    slots: &mut Slots,
    transaction: u64,
    first: usize,
    links: &[Link],
) -> Result<(), AllocError>
    requires { first + length links.now < 2 ^ 64 }
    ensures more { HasMoreExits slots.old.slots slots.new.slots }
    ensures noted { OnOk result (AreNoted transaction first links.now slots.new.slots) }
    ensures next { slots.new.next ≡ slots.old.next }
    ensures room { slots.new.room ≡ slots.old.room }
{
    for i in 0..links.len() {
        let exit = Exit {
            to: transaction,
            link: first + i,
        };
        note_exit(slots, links[i].from, exit)?;
    }
    Ok(())
}

/// Adds links into a transaction, after those that are there. Without memory no list of links changes.
fn add(
    slots: &mut Slots,
    into: &mut Vec<Links>,
    transaction: u64,
    links: &[Link],
) -> Result<(), AllocError>
    requires { transaction < length into.old.items }
    ensures more { HasMoreExits slots.old.slots slots.new.slots }
    ensures noted { OnOk result (AreNoted transaction
        (length (links_at into.old.items transaction)) links.now slots.new.slots) }
    ensures added { OnOk result (AreAdded transaction links.now into.old.items into.new.items) }
    ensures err { OnErr result (into.new.items ≡ into.old.items) }
    ensures next { slots.new.next ≡ slots.old.next }
    ensures room { slots.new.room ≡ slots.old.room }
{
    let number = transaction as usize;
    let first = into[number].as_slice().len();
    note_exits(slots, transaction, first, links)?;
    let list = &mut into[number];
    list.append(links)
}

/// Removes the links into a transaction.
fn forget_one(into: &mut Vec<Links>, transaction: u64, alloc: Global)
    ensures len { length into.new.items ≡ length into.old.items }
    ensures others { (y : ℕ) → y ≢ transaction
        → get_or into.new.items y [] ≡ get_or into.old.items y [] }
{
    let slot = transaction as usize;
    if slot < into.len() {
        into[slot] = Links::new(alloc);
    }
}

/// Removes the links into transactions.
fn forget(into: &mut Vec<Links>, gone: &[u64], alloc: Global)
    ensures len { length into.new.items ≡ length into.old.items }
    ensures others { (y : ℕ) → is_among y gone.now ≡ false
        → get_or into.new.items y [] ≡ get_or into.old.items y [] }
{
    for y in gone {
        forget_one(into, *y, alloc);
    }
}
