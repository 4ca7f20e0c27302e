//! The bytes at which instructions start.

ghost use Rattle.std.specs.Prelude.{◌≡◌, length};
ghost use Rattle.jvms_file.specs.Code.{place_of};
ghost use Rattle.insn.specs.Places.{IsStarts};

use shared_data::items::Items;
use std::marker::Model;

/// The bytes at which the instructions of a method start, in rising order. Contracts see the list of them.
#[derive(Debug, Drop)]
pub struct Starts {
    pcs: Vec<u32>,
}

impl Model for Starts {
    ghost use Rattle.std.specs.Prelude.{List, ℕ};
    ghost use Rattle.insn.specs.Places.{IsStarts};

    ghost Value = { List ℕ };

    ghost view = { λ s. s.pcs.items };

    ghost invariant = { λ s. IsStarts s.pcs.items };
}

/// Returns the place of a number among rising ones, by binary search. A linear search would be too slow for a method of
/// 65,535 bytes.
fn place_among(pcs: &[u32], pc: u32) -> Option<usize>
    requires { IsStarts pcs.now }
    ensures { result ≡ place_of pcs.now pc }
{
    match pcs.binary_search(&pc) {
        Ok(place) => Some(place),
        Err(_) => None,
    }
}

impl Starts {
    /// Creates the starts from these bytes.
    pub(crate) fn of(pcs: Vec<u32>) -> Self
        requires { IsStarts pcs.items }
        ensures { result ≡ pcs.items }
    {
        Starts { pcs }
    }

    /// Returns the bytes in order.
    pub fn as_slice(&self) -> &[u32]
        ensures value { result.now ≡ self.now }
        ensures starts { IsStarts result.now }
    {
        self.pcs.as_slice()
    }

    /// Returns the bytes in order, by value.
    pub(crate) fn into_items(self) -> Items<u32>
        ensures { result ≡ self }
    {
        Items::from_vec(self.pcs)
    }

    /// Returns the number of instructions.
    pub fn count(&self) -> u32
        ensures { result ≡ length self.now }
    {
        self.as_slice().len() as u32
    }

    /// Returns the place of the instruction that starts at a byte, if one does.
    pub fn place_of(&self, pc: u32) -> Option<u32>
        ensures { result ≡ place_of self.now pc }
    {
        match place_among(self.as_slice(), pc) {
            Some(place) => Some(place as u32),
            None => None,
        }
    }
}
