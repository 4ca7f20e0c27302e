//! A cache of members. A trace repeats the same few members: a text is parsed once, and each further line clones the
//! references to its names.

ghost use Rattle.std.specs.Prelude.{◌≡◌, ℕ, List, IfOk, MatchOption};
ghost use Rattle.escapes.specs.Readings.{IsReadAs};

use std::alloc::{AllocError, Global};
use std::marker::Model;

/// The number of slots of the cache.
const SLOTS: usize = 512;

/// A field or a method, as the lines of a trace spell it.
pub(crate) trait Member: Drop {
    // The condition under which a text may have the member.
    ghost is_valid: { Self → Type 0 };

    // The text of the member.
    ghost text_of: { Self → List ℕ };

    /// Reads a member from its text. Returns `None` if the text is no member.
    fn read(alloc: Global, text: &[u8]) -> Result<Option<Self>, AllocError>
        ensures { IfOk result (IsReadAs is_valid text_of text.now) };

    /// Clones the member. The clone shares its names.
    fn share(&self) -> Result<Self, AllocError>
        ensures { IfOk result (λ m. m ≡ self.now) };
}

/// A cached member with its text.
#[derive(Drop)]
struct Known<'t, M: Member> {
    text: &'t [u8],
    member: M,
}

impl<'t, M: Member> Model for Known<'t, M> {
    ghost use Rattle.std.specs.Prelude.{◌≡◌, ℕ, List};

    ghost Value = { List ℕ × M };

    ghost view = { λ k. (k.text.now, k.member) };

    ghost invariant = { λ k. M.is_valid k.member × (k.text.now ≡ M.text_of k.member) };
}

impl<'t, M: Member> Known<'t, M> {
    /// Returns a clone of the member if the text is its text.
    fn of(&self, text: &[u8]) -> Result<Option<M>, AllocError>
        ensures { IfOk result
            (λ o. MatchOption o (Unit {0}) (λ m. M.is_valid m × (text.now ≡ M.text_of m))) }
    {
        if self.text == text {
            Ok(Some(self.member.share()?))
        } else {
            Ok(None)
        }
    }
}

/// Returns the slot of a text in the cache, by a hash.
fn slot_of(text: &[u8]) -> usize {
    let mut hash: u32 = 0;
    for byte in text {
        hash = hash.wrapping_mul(31).wrapping_add(u32::from(*byte));
    }
    hash as usize % SLOTS
}

/// A direct-mapped cache of members. Each text has one slot, and a new member replaces the old one there.
#[derive(Drop)]
pub(crate) struct Members<'t, M: Member> {
    known: Vec<Option<Known<'t, M>>>,
    alloc: Global,
}

impl<'t, M: Member> Members<'t, M> {
    /// Returns an empty cache.
    pub(crate) fn new(alloc: Global) -> Result<Self, AllocError> {
        let mut known = Vec::with_capacity(alloc, SLOTS)?;
        for _ in 0..SLOTS {
            known.push(None)?;
        }
        Ok(Members { known, alloc })
    }

    /// Reads a member from its text, by the cache if it is there. Returns `None` if the text is no member.
    pub(crate) fn read(&mut self, text: &'t [u8]) -> Result<Option<M>, AllocError>
        ensures { IfOk result (IsReadAs M.is_valid M.text_of text.now) }
    {
        let slot = slot_of(text);
        if let Some(member) = self.known_in(slot, text)? {
            return Ok(Some(member));
        }
        match M::read(self.alloc, text)? {
            Some(member) => {
                self.keep(slot, text, &member)?;
                Ok(Some(member))
            }
            None => Ok(None),
        }
    }

    /// Returns the member of a text, if the text was read before and its slot still has it.
    pub(crate) fn known(&self, text: &[u8]) -> Result<Option<M>, AllocError>
        ensures { IfOk result
            (λ o. MatchOption o (Unit {0}) (λ m. M.is_valid m × (text.now ≡ M.text_of m))) }
    {
        self.known_in(slot_of(text), text)
    }

    /// Returns the member in a slot if the text is its text.
    fn known_in(&self, slot: usize, text: &[u8]) -> Result<Option<M>, AllocError>
        ensures { IfOk result
            (λ o. MatchOption o (Unit {0}) (λ m. M.is_valid m × (text.now ≡ M.text_of m))) }
    {
        match self.known.get(slot) {
            Some(Some(known)) => known.of(text),
            _ => Ok(None),
        }
    }

    /// Stores a member and its text in a slot.
    fn keep(&mut self, slot: usize, text: &'t [u8], member: &M) -> Result<(), AllocError>
        requires valid { M.is_valid member.now }
        requires written { text.now ≡ M.text_of member.now }
    {
        let member = member.share()?;
        if slot < self.known.len() {
            self.known[slot] = Some(Known { text, member });
        }
        Ok(())
    }
}
