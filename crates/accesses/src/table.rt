//! The table of places. Its entries never move, so an index stays valid. A place is looked up in a search tree, so no
//! choice of places makes it slow.

ghost use Rattle.std.specs.Prelude.{◌≡◌, ℕ, [], false, None, Some, IfOk, IfSome, OnOk, OnErr, MatchOption, slice_get};
ghost use Rattle.std.specs.BTreeMap.{BTreeMap as Map, Updates};
ghost use Rattle.std.specs.Map.{lookup};
ghost use Rattle.accesses.specs.Accesses.{Place as Kind};
ghost use Rattle.accesses.specs.Kept.{HasSpare, kept_at, kept_in};
ghost use Rattle.accesses.specs.Links.{AreAt};
ghost use Rattle.accesses.specs.OnePlace.{same_keys};
ghost use Rattle.accesses.specs.Ordered.{place_cmp};
ghost use Rattle.accesses.specs.Places.{place_of};
ghost use Rattle.accesses.specs.Rooms.{HasRoomAt, IsEntryOf, IsNotedAt};
ghost use Rattle.accesses.specs.Tables.{IsIndexed, IsEntryOrNone};
ghost use Rattle.accesses.specs.declared.place.Place.{Place as Key};

use crate::lasts::{Noted, PlaceAccesses};
use crate::place::{Place, share_place};
use crate::slot::Slot;
use std::alloc::{AllocError, Global};
use std::collections::BTreeMap;
use std::marker::Model;

/// The accesses to each place, in the order in which places were entered.
#[derive(Drop)]
pub struct Table {
    /// The index of each place's entry.
    index: BTreeMap<Place, usize>,
    entries: Vec<(Place, PlaceAccesses)>,
    alloc: Global,
}

impl Model for Table {
    ghost use Rattle.accesses.specs.Tables.{Entries, IsIndexed};

    ghost Value = { Entries };

    ghost view = { λ t. record { entries = t.entries.items } };

    ghost invariant = { λ t. IsIndexed t.index t.entries.items };
}

impl Table {
    /// Returns an empty table.
    pub fn new(alloc: Global) -> Self
        ensures { result.entries ≡ [] }
    {
        Table {
            index: BTreeMap::new(alloc),
            entries: Vec::new(alloc),
            alloc,
        }
    }

    /// Returns the index of a place's entry, if it has one.
    pub fn index_of(&self, place: &Place) -> Option<usize>
        ensures { IsEntryOrNone self.now.entries place.now result }
    {
        self.index.get(place).copied()
    }

    /// Returns the place and the accesses of the entry at an index.
    pub fn get(&self, index: usize) -> Option<(&Place, &PlaceAccesses)>
        ensures entry { MatchOption result (slice_get self.now.entries index ≡ None)
            (λ e. slice_get self.now.entries index ≡ Some (e.0.now, e.1.now)) }
        ensures kept { IfSome result (λ e. AreAt (kept_in self.now.entries)
            (place_of e.0.now) (kept_at (place_of e.0.now) e.1.now)) }
    {
        if index >= self.entries.len() {
            return None;
        }
        let entry = &self.entries[index];
        Some((&entry.0, &entry.1))
    }

    /// Returns the index of a place's entry. Adds one if there is none.
    pub fn enter(&mut self, place: Place) -> Result<usize, AllocError>
        ensures same { kept_in self.new.entries ≡ kept_in self.old.entries }
        ensures at { IfOk result (λ n. IsEntryOf self.new.entries n (place_of place)) }
        ensures places { (n : ℕ) (p : Kind) → IsEntryOf self.old.entries n p
            → IsEntryOf self.new.entries n p }
    {
        match self.index_of(&place) {
            Some(index) => Ok(index),
            None => self.add(place),
        }
    }

    /// Appends an entry for a place that has none.
    fn add(&mut self, place: Place) -> Result<usize, AllocError>
        requires { lookup (same_keys place) self.old.entries ≡ None }
        ensures same { kept_in self.new.entries ≡ kept_in self.old.entries }
        ensures at { IfOk result (λ n. IsEntryOf self.new.entries n (place_of place)) }
        ensures places { (n : ℕ) (p : Kind) → IsEntryOf self.old.entries n p
            → IsEntryOf self.new.entries n p }
    {
        add_in(&mut self.index, &mut self.entries, place, self.alloc)
    }

    /// Reserves the memory for one more non-main access at an entry.
    pub fn make_room(&mut self, index: usize) -> Result<(), AllocError>
        ensures same { kept_in self.new.entries ≡ kept_in self.old.entries }
        ensures room { OnOk result (HasRoomAt self.new.entries index) }
        ensures places { (n : ℕ) (p : Kind) → IsEntryOf self.old.entries n p
            → IsEntryOf self.new.entries n p }
    {
        make_room_in(&mut self.entries, index)
    }

    /// Records an access at its entry.
    pub fn note_at(&mut self, slot: Slot, noted: Noted)
        requires { MatchOption (slice_get self.old.entries slot.index) ⊥
            (λ e. slot.is_main ≡ false → HasSpare e.1) }
        ensures { IsNotedAt slot noted self.old.entries self.new.entries }
    {
        note_in(&mut self.entries, slot, noted);
    }
}

/// Appends an entry for a place that has none.
fn add_in(
    index: &mut BTreeMap<Place, usize>,
    entries: &mut Vec<(Place, PlaceAccesses)>,
    place: Place,
    alloc: Global,
) -> Result<usize, AllocError>
    requires indexed { IsIndexed index.old entries.old.items }
    requires none { lookup (same_keys place) entries.old.items ≡ None }
    ensures indexed { IsIndexed index.new entries.new.items }
    ensures same { kept_in entries.new.items ≡ kept_in entries.old.items }
    ensures at { IfOk result (λ n. IsEntryOf entries.new.items n (place_of place)) }
    ensures places { (n : ℕ) (p : Kind) → IsEntryOf entries.old.items n p
        → IsEntryOf entries.new.items n p }
{
    entries.reserve(1)?;
    let count = entries.len();
    note_index(index, &place, count)?;
    entries.push_reserved((place, PlaceAccesses::new(alloc)));
    Ok(count)
}

/// Records the index of a place's entry.
fn note_index(
    index: &mut BTreeMap<Place, usize>,
    place: &Place,
    count: usize,
) -> Result<(), AllocError>
    ensures err { OnErr result (index.new.entries ≡ index.old.entries) }
    ensures ok { OnOk result (Updates place_cmp index.old index.new place.now (Some count)) }
{
    let key = share_place(place)?;
    index.insert(key, count)?;
    Ok(())
}

/// Reserves the memory for one more non-main access at an entry.
fn make_room_in(entries: &mut Vec<(Place, PlaceAccesses)>, index: usize) -> Result<(), AllocError>
    ensures indexed { (m : Map Key ℕ) → IsIndexed m entries.old.items
        → IsIndexed m entries.new.items }
    ensures same { kept_in entries.new.items ≡ kept_in entries.old.items }
    ensures room { OnOk result (HasRoomAt entries.new.items index) }
    ensures places { (n : ℕ) (p : Kind) → IsEntryOf entries.old.items n p
        → IsEntryOf entries.new.items n p }
{
    if index >= entries.len() {
        return Ok(());
    }
    let entry = &mut entries[index];
    entry.1.reserve()
}

/// Records an access at its entry.
fn note_in(entries: &mut Vec<(Place, PlaceAccesses)>, slot: Slot, noted: Noted)
    requires { MatchOption (slice_get entries.old.items slot.index) ⊥
        (λ e. slot.is_main ≡ false → HasSpare e.1) }
    ensures indexed { (m : Map Key ℕ) → IsIndexed m entries.old.items
        → IsIndexed m entries.new.items }
    ensures noted { IsNotedAt slot noted entries.old.items entries.new.items }
{
    if slot.index >= entries.len() {
        return;
    }
    let entry = &mut entries[slot.index];
    entry.1.note(slot.is_main, noted);
}
