//! The last accesses of a trace.

ghost use Rattle.std.specs.Prelude.{◌≡◌, ℕ, [], ◌∷◌, false, None, Some, IfOk, IfSome, OnOk, MatchOption, slice_get};
ghost use Rattle.jvms_machine.specs.Events.{thread_of};
ghost use Rattle.accesses.specs.Accesses.{Access, AreLinks, IsNoted, OfThread, Place as Kind, accesses_beside, main_at};
ghost use Rattle.accesses.specs.Kept.{HasSpare, kept_at, kept_in};
ghost use Rattle.accesses.specs.Links.{AreAdded, AreAt};
ghost use Rattle.accesses.specs.OnePlace.{same_keys};
ghost use Rattle.accesses.specs.Places.{place_of};
ghost use Rattle.accesses.specs.Rooms.{AreReady, HasRoom, HasRoomAt, IsEntryOf, IsNotedAt, IsReady, IsTouchedAt, kept_of};
ghost use Rattle.accesses.specs.Touches.{access_of};

use crate::guesses::Guesses;
use crate::indexed::{of_thread, of_touched};
use crate::lasts::{Noted, PlaceAccesses};
use crate::place::Place;
use crate::slot::Slot;
use crate::table::Table;
use crate::touch::{Touch, has_main_touch, thread_of, touched};
use atom_order::Link;
use jvms_machine::trace::Item;
use std::alloc::{AllocError, Global};
use std::marker::Model;

/// The last accesses of a trace. Each place has its last main access, and the last non-main access of each thread since
/// then. Contracts see them by place, with the entries that are reserved for an item.
#[derive(Drop)]
pub struct Accesses {
    lasts: Table,
    /// The index of the entry that is reserved for the item's own thread.
    own: usize,
    /// The entry that is reserved for what the item touches.
    touched: Option<Slot>,
    /// Guessed entries of threads, and of what threads touch.
    threads: Guesses,
    guesses: Guesses,
    alloc: Global,
}

impl Model for Accesses {
    ghost use Rattle.accesses.specs.Rooms.{Remembered};

    ghost Value = { Remembered };

    ghost view = { λ a. record { entries = a.lasts.entries; own = a.own; touched = a.touched } };
}

impl Accesses {
    /// Returns an empty record of accesses.
    pub fn new(alloc: Global) -> Self
        ensures { kept_of result ≡ [] }
    {
        Accesses {
            lasts: Table::new(alloc),
            own: 0,
            touched: None,
            threads: Guesses::new(alloc),
            guesses: Guesses::new(alloc),
            alloc,
        }
    }

    /// Replaces a list by the links from remembered accesses to a new event, for which `reserve` has reserved memory.
    pub fn ready_links(
        &self,
        number: u64,
        item: &Item,
        links: &mut Vec<Link>,
    ) -> Result<(), AllocError>
        requires { HasRoom self.now item.now }
        ensures { OnOk result (AreLinks (kept_of self.now) number item.now links.new.items) }
    {
        links.clear();
        self.push_at(self.own, true, number, links)?;
        match self.touched {
            Some(slot) => self.push_at(slot.index, slot.is_main, number, links),
            None => Ok(()),
        }
    }

    /// Appends the links of a new event from accesses to the place whose entry is at an index.
    fn push_at(
        &self,
        index: usize,
        is_main: bool,
        number: u64,
        links: &mut Vec<Link>,
    ) -> Result<(), AllocError>
        ensures { OnOk result ((x : Access) → IsReady self.now.entries index x → is_main ≡ x.is_main
            → AreAdded (kept_of self.now) number (x ∷ []) links.old.items links.new.items) }
    {
        match self.lasts.get(index) {
            Some((_, lasts)) => lasts.push_links(is_main, number, links),
            None => Ok(()),
        }
    }

    /// Reserves the memory that `ready_links` and `note` need for an item. The remembered accesses don't change. `hash`
    /// is the hash of what the item touches: with any other number it takes longer.
    pub fn reserve(&mut self, hash: u32, item: &Item) -> Result<(), AllocError>
        ensures same { kept_of self.new ≡ kept_of self.old }
        ensures room { OnOk result (HasRoom self.new item.now) }
    {
        let entry = self.reserve_own(item)?;
        self.own = entry;
        self.reserve_touched(hash, item)
    }

    /// Returns the entry of an item's thread. Adds one if there is none.
    fn reserve_own(&mut self, item: &Item) -> Result<usize, AllocError>
        ensures same { kept_of self.new ≡ kept_of self.old }
        ensures ready { IfOk result
            (λ n. IsEntryOf self.new.entries n (OfThread (thread_of item.now))) }
    {
        let thread = thread_of(item);
        let guess = self.threads.at(thread);
        if let Some(_) = of_thread(&self.lasts, guess, thread) {
            return Ok(guess);
        }
        let index = self.lasts.enter(Place::OfThread(thread))?;
        self.threads.note(thread, index)?;
        Ok(index)
    }

    /// Reserves the entry of what an item touches.
    fn reserve_touched(&mut self, hash: u32, item: &Item) -> Result<(), AllocError>
        ensures same { kept_of self.new ≡ kept_of self.old }
        ensures own { self.new.own ≡ self.old.own }
        ensures ready { OnOk result
            (AreReady self.new.entries self.new.touched (accesses_beside item.now)) }
        ensures places { (n : ℕ) (p : Kind) → IsEntryOf self.old.entries n p
            → IsEntryOf self.new.entries n p }
    {
        let guess = self.guesses.at(hash);
        match of_touched(&self.lasts, guess, item) {
            Some(_) => self.ready_guessed(guess, item),
            None => self.ready_looked_up(hash, item),
        }
    }

    /// Reserves memory at an entry that is known to be of what the item touches.
    fn ready_guessed(&mut self, index: usize, item: &Item) -> Result<(), AllocError>
        requires { (here : PlaceAccesses) × IsTouchedAt self.old.entries index item.now here }
        ensures same { kept_of self.new ≡ kept_of self.old }
        ensures own { self.new.own ≡ self.old.own }
        ensures ready { OnOk result
            (AreReady self.new.entries self.new.touched (accesses_beside item.now)) }
        ensures places { (n : ℕ) (p : Kind) → IsEntryOf self.old.entries n p
            → IsEntryOf self.new.entries n p }
    {
        let is_main = has_main_touch(item);
        if !is_main {
            self.lasts.make_room(index)?;
        }
        self.touched = Some(Slot { index, is_main });
        Ok(())
    }

    /// Looks up what an item touches, and reserves its entry.
    fn ready_looked_up(&mut self, hash: u32, item: &Item) -> Result<(), AllocError>
        ensures same { kept_of self.new ≡ kept_of self.old }
        ensures own { self.new.own ≡ self.old.own }
        ensures ready { OnOk result
            (AreReady self.new.entries self.new.touched (accesses_beside item.now)) }
        ensures places { (n : ℕ) (p : Kind) → IsEntryOf self.old.entries n p
            → IsEntryOf self.new.entries n p }
    {
        match touched(item)? {
            Some(touch) => {
                let found = self.ready(touch)?;
                self.touched = Some(found);
                self.guesses.note(hash, found.index)?;
            }
            None => self.touched = None,
        }
        Ok(())
    }

    /// Reserves the entry of an access. For a non-main access it also reserves the memory for one more.
    fn ready(&mut self, touch: Touch) -> Result<Slot, AllocError>
        ensures same { kept_of self.new ≡ kept_of self.old }
        ensures own { self.new.own ≡ self.old.own }
        ensures ready { IfOk result (λ s. IsReady self.new.entries s.index (access_of touch)
            × (s.is_main ≡ touch.is_main)) }
        ensures places { (n : ℕ) (p : Kind) → IsEntryOf self.old.entries n p
            → IsEntryOf self.new.entries n p }
    {
        let is_main = touch.is_main;
        let index = self.lasts.enter(touch.place)?;
        if !is_main {
            self.lasts.make_room(index)?;
        }
        Ok(Slot { index, is_main })
    }

    /// Records the accesses of an event, for which `reserve` has reserved memory.
    pub fn note(&mut self, number: u64, transaction: u64, item: &Item)
        requires { HasRoom self.old item.now }
        ensures { IsNoted number transaction item.now (kept_of self.old) (kept_of self.new) }
    {
        let noted = Noted {
            number,
            transaction,
            thread: thread_of(item),
        };
        let own = Slot {
            index: self.own,
            is_main: true,
        };
        self.lasts.note_at(own, noted);
        match self.touched {
            Some(slot) => self.lasts.note_at(slot, noted),
            None => {}
        }
    }
}
