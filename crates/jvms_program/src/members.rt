//! The members of a class (JVMS 4.5, 4.6), which are found by name and descriptor.

ghost use Rattle.std.specs.Prelude.{◌≡◌, ◌++◌, ℕ, List, IfOk, length, true};
ghost use Rattle.std.specs.List.{list_any, position, range_with_len};
ghost use Rattle.std.specs.List.Sorted.{IsPermutation};
ghost use Rattle.std.specs.Cmp.Lexicographic.{slice_cmp};
ghost use Rattle.std.specs.Ordering.{is_lt, nat_cmp};
ghost use Rattle.jvms_program.specs.MemberOrders.{AreDistinct, AreNumbers, IsRising, has_name, is_named, names_at, names_cmp};

use crate::program::{Field, Method};
use std::alloc::{AllocError, Global};
use std::cmp::Ordering;
use std::marker::Model;

/// A member of a class: a field or a method.
pub trait Member {
    ghost names: { Self → List ℕ × List ℕ };

    /// Returns the name.
    fn name(&self) -> &[u16]
        ensures { result.now ≡ (names self.now).0 };

    /// Returns the descriptor.
    fn descriptor(&self) -> &[u16]
        ensures { result.now ≡ (names self.now).1 };
}

impl Member for Field {
    ghost names = { λ f. (f.name, f.descriptor) };

    fn name(&self) -> &[u16] {
        self.name.as_slice()
    }

    fn descriptor(&self) -> &[u16] {
        self.descriptor.as_slice()
    }
}

impl Member for Method {
    ghost names = { λ m. (m.name, m.descriptor) };

    fn name(&self) -> &[u16] {
        self.name.as_slice()
    }

    fn descriptor(&self) -> &[u16] {
        self.descriptor.as_slice()
    }
}

/// The fields or the methods of a class as it declares them, with their order by name and descriptor. Contracts see the
/// list of the members.
#[derive(Drop)]
pub struct Members<T: Member> {
    items: Vec<T>,
    /// The numbers of the members in the order of their names and descriptors.
    order: Vec<usize>,
    /// True only if no two members have the same name and descriptor, as in class files (JVMS 4.5, 4.6).
    rises: bool,
}

impl<T: Member> Model for Members<T> {
    ghost use Rattle.std.specs.Prelude.{List, ◌≡◌, true};
    ghost use Rattle.jvms_program.specs.MemberOrders.{AreDistinct, AreNumbers, IsRising};

    ghost Value = { List T };

    ghost view = { λ m. m.items.items };

    ghost invariant = { λ m. AreNumbers m.items.items m.order.items
        × (m.rises ≡ true → IsRising T.names m.items.items m.order.items) };
}

/// Compares a name and a descriptor with another name and descriptor.
fn compare_names(a: (&[u16], &[u16]), b: (&[u16], &[u16])) -> Ordering
    ensures { result
        ≡ names_cmp (a.entry.0.now, a.entry.1.now) (b.entry.0.now, b.entry.1.now) }
{
    a.cmp(&b)
}

/// Returns the name and the descriptor of the member of a number, or empty ones if there is no such member.
fn names_at<T: Member>(items: &[T], number: usize) -> (&[u16], &[u16])
    ensures { (result.0.now, result.1.now) ≡ names_at T.names items.now number }
{
    match items.get(number) {
        Some(member) => (member.name(), member.descriptor()),
        None => (&[], &[]),
    }
}

/// Compares the name and the descriptor of the member of a number with others.
fn compare_at<T: Member>(items: &[T], number: usize, name: &[u16], descriptor: &[u16]) -> Ordering
    ensures { result
        ≡ names_cmp (names_at T.names items.now number) (name.now, descriptor.now) }
{
    compare_names(names_at(items, number), (name, descriptor))
}

/// Decides whether each number of an order is below that of the next by its member's name and descriptor.
fn is_rising<T: Member>(items: &[T], order: &[usize]) -> bool
    ensures { result ≡ true → IsRising T.names items.now order.now }
{
    for k in 1..order.len() {
        let before = names_at(items, order[k - 1]);
        let after = names_at(items, order[k]);
        if !compare_names(before, after).is_lt() {
            return false;
        }
    }
    true
}

/// Returns the numbers from 0 below a count.
fn numbers_below(alloc: Global, count: usize) -> Result<Vec<usize>, AllocError>
    ensures { IfOk result (λ numbers. numbers.items ≡ range_with_len 0 count) }
{
    (0..count).collect(alloc)
}

/// Returns the numbers of the members in the order of their names and descriptors.
fn order_of<T: Member>(alloc: Global, items: &[T]) -> Result<Vec<usize>, AllocError>
    ensures { IfOk result (λ order. AreNumbers items.now order.items) }
{
    let mut order = numbers_below(alloc, items.len())?;
    order.sort_unstable_by(|a, b| compare_names(names_at(items, *a), names_at(items, *b)));
    Ok(order)
}

impl<T: Member + Drop> Members<T> {
    /// Creates the members of a class, which declares them in this order.
    pub fn from_vec(alloc: Global, items: Vec<T>) -> Result<Self, AllocError>
        ensures { IfOk result (λ members. members ≡ items.items) }
    {
        let order = order_of(alloc, items.as_slice())?;
        let rises = is_rising(items.as_slice(), order.as_slice());
        Ok(Members {
            items,
            order,
            rises,
        })
    }
}

impl<T: Member> Members<T> {
    /// Returns the number of members.
    pub fn len(&self) -> usize
        ensures { result ≡ length self.now }
    {
        self.items.len()
    }

    /// Returns the members as the class declares them.
    pub fn as_slice(&self) -> &[T]
        ensures { result.now ≡ self.now }
    {
        self.items.as_slice()
    }

    /// Returns true only if no two members have the same name and descriptor, as in class files (JVMS 4.5, 4.6).
    pub fn are_distinct(&self) -> bool
        ensures { result ≡ true → AreDistinct T.names self.now }
    {
        self.rises
    }

    /// Returns the number of the first member of a name and a descriptor. The number of members that it compares with is
    /// logarithmic.
    pub fn number_of(&self, name: &[u16], descriptor: &[u16]) -> Option<usize>
        ensures { result ≡ position (is_named T.names name.now descriptor.now) self.now }
    {
        if self.rises {
            number_in(
                self.items.as_slice(),
                self.order.as_slice(),
                name,
                descriptor,
            )
        } else {
            first_number(self.items.as_slice(), name, descriptor)
        }
    }

    /// Decides whether a member has a name. The number of members that it compares with is logarithmic.
    pub fn has_name(&self, name: &[u16]) -> bool
        ensures { result ≡ list_any (has_name T.names name.now) self.now }
    {
        if self.rises {
            is_name_in(self.items.as_slice(), self.order.as_slice(), name)
        } else {
            is_name_of_any(self.items.as_slice(), name)
        }
    }
}

/// Compares the name of the member of a number with another name.
fn compare_name_at<T: Member>(items: &[T], number: usize, name: &[u16]) -> Ordering
    ensures { result ≡ slice_cmp nat_cmp (names_at T.names items.now number).0 name.now }
{
    let (other, _) = names_at(items, number);
    other.cmp(name)
}

/// Decides whether a member has a name.
fn is_name_of_any<T: Member>(items: &[T], name: &[u16]) -> bool
    ensures { result ≡ list_any (has_name T.names name.now) items.now }
{
    items.iter().any(|member| member.name() == name)
}

/// Decides whether a member has a name, by a rising order of the members.
fn is_name_in<T: Member>(items: &[T], order: &[usize], name: &[u16]) -> bool
    requires numbers { AreNumbers items.now order.now }
    requires rising { IsRising T.names items.now order.now }
    ensures { result ≡ list_any (has_name T.names name.now) items.now }
{
    match order.binary_search_by(|number| compare_name_at(items, *number, name)) {
        Ok(_) => true,
        Err(_) => false,
    }
}

/// Returns the number of the first member of a name and a descriptor.
fn first_number<T: Member>(items: &[T], name: &[u16], descriptor: &[u16]) -> Option<usize>
    ensures { result ≡ position (is_named T.names name.now descriptor.now) items.now }
{
    items.iter().position(|member| member.name() == name && member.descriptor() == descriptor)
}

/// Returns the number of the member of a name and a descriptor, by a rising order of the members.
fn number_in<T: Member>(
    items: &[T],
    order: &[usize],
    name: &[u16],
    descriptor: &[u16],
) -> Option<usize>
    requires numbers { AreNumbers items.now order.now }
    requires rising { IsRising T.names items.now order.now }
    ensures { result ≡ position (is_named T.names name.now descriptor.now) items.now }
{
    match order.binary_search_by(|number| compare_at(items, *number, name, descriptor)) {
        Ok(place) => Some(order[place]),
        Err(_) => None,
    }
}
