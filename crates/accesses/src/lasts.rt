//! The last accesses to one place.

ghost use Rattle.std.specs.Prelude.{◌≡◌, ◌++◌, [], None, OnOk, false};
ghost use Rattle.accesses.specs.Kept.{HasSpare, IsNotedIn, IsMainNoted, IsBesideNoted};
ghost use Rattle.accesses.specs.Links.{link_from, links_of, main_links};

use crate::by_thread::ByThread;
use atom_order::Link;
use jvms_machine::machine::ThreadId;
use std::alloc::{AllocError, Global};
use velodrome::verdict::ConflictingPair;

/// An access of an event.
#[derive(Clone, Copy, Debug)]
pub struct Noted {
    /// The event's number, from 1.
    pub number: u64,
    /// Its transaction's number, from 1.
    pub transaction: u64,
    /// The event's thread.
    pub thread: ThreadId,
}

impl Noted {
    /// Returns the link from this access to event `number`.
    pub fn link(self, number: u64) -> Link
        ensures { result ≡ link_from number self }
    {
        Link {
            from: self.transaction,
            pair: ConflictingPair {
                earlier: self.number,
                later: number,
            },
        }
    }
}

/// The last main access to a place, and the last non-main access of each thread since then.
#[derive(Debug, Drop)]
pub struct PlaceAccesses {
    /// The last main access.
    pub main: Option<Noted>,
    /// The non-main accesses since then, by thread.
    pub beside: ByThread,
}

impl PlaceAccesses {
    /// Returns a place without accesses.
    pub fn new(alloc: Global) -> Self
        ensures main { result.main ≡ None }
        ensures beside { result.beside.items ≡ [] }
    {
        PlaceAccesses {
            main: None,
            beside: ByThread::new(alloc),
        }
    }

    /// Reserves the memory for one more non-main access.
    pub fn reserve(&mut self) -> Result<(), AllocError>
        ensures main { self.new.main ≡ self.old.main }
        ensures beside { self.new.beside.items ≡ self.old.beside.items }
        ensures room { OnOk result (HasSpare self.new) }
    {
        self.beside.reserve()
    }

    /// Records an access. A main access replaces all others, and a non-main access replaces the last one of its thread.
    pub fn note(&mut self, is_main: bool, noted: Noted)
        requires { is_main ≡ false → HasSpare self.old }
        ensures { IsNotedIn is_main noted self.old self.new }
    {
        if is_main {
            self.note_main(noted);
        } else {
            self.note_beside(noted);
        }
    }

    /// Records a main access, which replaces all others.
    fn note_main(&mut self, noted: Noted)
        ensures { IsMainNoted noted self.old self.new }
    {
        self.main = Some(noted);
        self.beside.clear();
    }

    /// Records a non-main access, which replaces the last one of its thread.
    fn note_beside(&mut self, noted: Noted)
        requires { HasSpare self.old }
        ensures { IsBesideNoted noted self.old self.new }
    {
        self.beside.note(noted);
    }

    /// Appends the links to event `number`: from all accesses if the new one is main, else from the main access alone.
    pub fn push_links(
        &self,
        is_main: bool,
        number: u64,
        links: &mut Vec<Link>,
    ) -> Result<(), AllocError>
        ensures { OnOk result
            (links.new.items ≡ links.old.items ++ links_of is_main number self.now) }
    {
        self.push_main(number, links)?;
        if is_main {
            return self.beside.push_links(number, links);
        }
        Ok(())
    }

    /// Appends the link from the main access.
    fn push_main(&self, number: u64, links: &mut Vec<Link>) -> Result<(), AllocError>
        ensures { OnOk result
            (links.new.items ≡ links.old.items ++ main_links number self.now.main) }
    {
        if let Some(last) = self.main {
            links.push(last.link(number))?;
        }
        Ok(())
    }
}
