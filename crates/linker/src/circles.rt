//! Tests whether a class is its own superclass or superinterface, over one or more steps.

ghost use Rattle.std.specs.Prelude.{◌≡◌, ◌<◌, ℕ, List, [], Some, slice_index_or, nat_le, nat_lt, true, false, length, IfOk};
ghost use Rattle.std.specs.List.{list_all};
ghost use Rattle.jvms_program.specs.Program.{class_number};
ghost use Rattle.linker.specs.Linking.{circular, is_circular};
ghost use Rattle.classes.specs.Hierarchy.{numbers_of, rank, super_rows};
ghost use Rattle.linker.specs.Supers.{AreAllAbove, Fall, is_above};

use crate::number_set::NumberSet;
use classes::{ClassList, ranks_of, super_numbers, super_rows};
use jvms_program::program::Class;
use shared_data::items::Items;
use std::alloc::{AllocError, Global};
use std::marker::Model;

/// Returns the rank of the class of a number.
fn rank(ranks: &[usize], number: usize) -> usize
    ensures { result ≡ rank ranks.now number }
{
    ranks.get(number).copied().unwrap_or(0)
}

/// Decides whether no class of these numbers has a rank above this one.
fn none_is_above(ranks: &[usize], most: usize, numbers: &[usize]) -> bool
    ensures { result ≡ list_all (λ n. nat_le (rank ranks.now n) most) numbers.now }
{
    numbers.iter().all(|number| rank(ranks, *number) <= most)
}

/// Decides whether all classes of these numbers have ranks below this one.
fn all_are_below(ranks: &[usize], limit: usize, numbers: &[usize]) -> bool
    ensures { result ≡ list_all (λ n. nat_lt (rank ranks.now n) limit) numbers.now }
{
    numbers.iter().all(|number| rank(ranks, *number) < limit)
}

/// Returns true only if no class has a superclass or superinterface of a higher rank, given their numbers.
fn fall(rows: &[Items<usize>], ranks: &[usize]) -> bool
    ensures { result ≡ true → Fall rows.now ranks.now }
{
    for (class, row) in rows.iter().enumerate() {
        if !none_is_above(ranks, rank(ranks, class), row.as_slice()) {
            return false;
        }
    }
    true
}

/// The superclasses and superinterfaces of a program's classes, by their numbers. Contracts see the classes.
#[derive(Drop)]
struct Supers<'p> {
    program: &'p ClassList,
    /// The numbers of each class's superinterfaces and of its superclass.
    rows: Vec<Items<usize>>,
    /// The rank of each class.
    ranks: Vec<usize>,
    /// True only if no class has a superclass or superinterface of a higher rank.
    falls: bool,
}

impl<'p> Model for Supers<'p> {
    ghost use Rattle.std.specs.Prelude.{List};
    ghost use Rattle.jvms_program.specs.declared.program.Class.{Class};
    ghost use Rattle.linker.specs.Supers.{AreSupersOf};

    ghost Value = { List Class };

    ghost view = { λ s. s.program.now };

    ghost invariant = { λ s. AreSupersOf s.program.now s.rows.items s.ranks.items s.falls };
}

impl<'p> Supers<'p> {
    /// Computes the superclasses and superinterfaces of a program.
    fn of(alloc: Global, program: &'p ClassList) -> Result<Self, AllocError>
        ensures { IfOk result (λ supers. supers ≡ program.now) }
    {
        let rows = super_rows(alloc, program)?;
        let ranks = ranks_of(alloc, rows.as_slice())?;
        let falls = fall(rows.as_slice(), ranks.as_slice());
        Ok(Supers {
            program,
            rows,
            ranks,
            falls,
        })
    }

    /// Returns the program.
    fn program(&self) -> &'p ClassList
        ensures { result.now ≡ self.now }
    {
        self.program
    }

    /// Returns the number of classes.
    fn len(&self) -> usize
        ensures { result ≡ length self.now }
    {
        self.program.classes().len()
    }

    /// Returns the numbers of the superinterfaces and the superclass of the class of a number.
    fn row(&self, number: usize) -> &[usize]
        requires { number < length self.now }
        ensures value { result.now ≡ slice_index_or (super_rows self.now) number [] }
        ensures below { list_all (λ n. nat_lt n (length self.now)) result.now ≡ true }
    {
        self.rows[number].as_slice()
    }

    /// Returns the numbers of all classes that are in the ancestries of some names, given the numbers of the classes of
    /// these names.
    fn all_above(&self, alloc: Global, numbers: &[usize]) -> Result<NumberSet, AllocError>
        requires { list_all (λ n. nat_lt n (length self.now)) numbers.now ≡ true }
        ensures { IfOk result (λ met. (names : List (List ℕ))
            → numbers.now ≡ numbers_of self.now names → AreAllAbove self.now names met.numbers) }
    {
        let mut met = NumberSet::new(alloc, self.len())?;
        met.add_all(numbers)?;
        for place in 0..self.len() {
            let Some(number) = met.get(place) else {
                return Ok(met);
            };
            met.add_all(self.row(number))?;
        }
        met.few_classes_invariant();
        Ok(met)
    }

    /// Returns true only if the rank of a class shows that it isn't in the ancestries of classes of these numbers.
    fn is_not_above(&self, number: usize, numbers: &[usize]) -> bool
        ensures { result ≡ true → (name : List ℕ) (names : List (List ℕ))
            → class_number self.now name ≡ Some number → numbers.now ≡ numbers_of self.now names
            → is_above self.now (length self.now) name names ≡ false }
    {
        let ranks = self.ranks.as_slice();
        self.falls && all_are_below(ranks, rank(ranks, number), numbers)
    }

    /// Decides whether a class is in the ancestry of its superclass or of a superinterface. If its rank doesn't exclude
    /// that, all classes above it are searched.
    fn is_circular(&self, alloc: Global, class: &Class) -> Result<bool, AllocError>
        ensures { IfOk result (λ is. is ≡ is_circular self.now class.now) }
    {
        let program = self.program();
        let Some(number) = program.class_number(class.name.as_slice()) else {
            return Ok(false);
        };
        let supers = super_numbers(alloc, program, class)?;
        if self.is_not_above(number, supers.as_slice()) {
            return Ok(false);
        }
        Ok(self.all_above(alloc, supers.as_slice())?.has(number))
    }
}

/// Returns the first of these classes that is in the ancestry of its superclass or of a superinterface.
pub(crate) fn circular(
    alloc: Global,
    program: &ClassList,
    classes: &[Class],
) -> Result<Option<usize>, AllocError>
    ensures { IfOk result (λ place. place ≡ circular program.now classes.now) }
{
    let supers = Supers::of(alloc, program)?;
    for (place, class) in classes.iter().enumerate() {
        if supers.is_circular(alloc, class)? {
            return Ok(Some(place));
        }
    }
    Ok(None)
}
