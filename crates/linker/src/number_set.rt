//! A set of numbers below a limit.

ghost use Rattle.std.specs.Prelude.{◌≡◌, ◌<◌, ◌≤◌, [], true, nat_lt, length, slice_get, IfOk, IfSome, OnOk};
ghost use Rattle.std.specs.List.{list_all};
ghost use Rattle.linker.specs.Supers.{is_in, with_number, with_numbers};

use std::alloc::{AllocError, Global};
use std::marker::Model;

/// Distinct numbers below a limit, in the order in which they were added.
#[derive(Drop)]
pub(crate) struct NumberSet {
    /// True at the place of each number of the set.
    marks: Vec<bool>,
    order: Vec<usize>,
}

impl Model for NumberSet {
    ghost use Rattle.std.specs.Prelude.{length};
    ghost use Rattle.linker.specs.Supers.{AreMarked, Numbers};

    ghost Value = { Numbers };

    ghost view = { λ s. record { limit = length s.marks.items; numbers = s.order.items } };

    ghost invariant = { λ s. AreMarked s.marks.items s.order.items };
}

/// Returns the number at a place.
fn item_at(numbers: &[usize], place: usize) -> Option<usize>
    ensures { result ≡ slice_get numbers.now place }
{
    numbers.get(place).copied()
}

impl NumberSet {
    /// Creates an empty set of numbers below a limit.
    pub(crate) fn new(alloc: Global, limit: usize) -> Result<Self, AllocError>
        ensures { IfOk result (λ set. set ≡ record { limit = limit; numbers = [] }) }
    {
        Ok(NumberSet {
            marks: vec![in alloc; false; limit]?,
            order: Vec::new(alloc),
        })
    }

    /// Decides whether a number is in the set.
    pub(crate) fn has(&self, number: usize) -> bool
        ensures { result ≡ is_in self.now.numbers number }
    {
        self.marks.get(number).copied().unwrap_or(false)
    }

    /// Returns the number at a place, in the order in which they were added.
    pub(crate) fn get(&self, place: usize) -> Option<usize>
        ensures value { result ≡ slice_get self.now.numbers place }
        ensures below { IfSome result (λ number. number < self.now.limit) }
    {
        item_at(self.order.as_slice(), place)
    }

    /// Adds a number.
    pub(crate) fn add(&mut self, number: usize) -> Result<(), AllocError>
        requires { number < self.old.limit }
        ensures { OnOk result (self.new
            ≡ record { limit = self.old.limit; numbers = with_number self.old.numbers number }) }
    {
        if self.has(number) {
            return Ok(());
        }
        self.order.push(number)?;
        self.marks[number] = true;
        Ok(())
    }

    /// Adds numbers.
    pub(crate) fn add_all(&mut self, numbers: &[usize]) -> Result<(), AllocError>
        requires { list_all (λ n. nat_lt n self.old.limit) numbers.now ≡ true }
        ensures { OnOk result (self.new ≡ record {
          limit = self.old.limit;
          numbers = with_numbers self.old.numbers numbers.now;
        }) }
    {
        for number in numbers {
            self.add(*number)?;
        }
        Ok(())
    }

    /// States that there are no more numbers than the limit. It does nothing at run time.
    pub(crate) fn few_classes_invariant(&self)
        ensures { length self.now.numbers ≤ self.now.limit }
    {
        let _ = &self.marks;
    }
}
