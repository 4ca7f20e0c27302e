//! Searches the ancestries of classes (JVMS 5.4.3) for the first match, with marks that allocate no memory.
//!
//! A first pass marks all classes above one. It goes from the last in the order to the first, so that each class comes
//! after those below it. A second pass goes from the first to the last, and marks those in whose ancestry there is a
//! match. So the way up to the first match passes only marked classes, and never goes back.

ghost use Rattle.std.specs.Prelude.{◌≡◌, ◌*◌, ◌<◌, ◌≤◌, ◌||◌, ℕ, List, Option, Some, false, is_some, length, slice_get, true};
ghost use Rattle.std.specs.List.{flat_map, list_any, list_all};
ghost use Rattle.jvms_program.specs.declared.program.Class.{Class as SeenClass};
ghost use Rattle.jvms_program.specs.Program.{class_number};
ghost use Rattle.jvms_program.specs.Resolution.{ancestry, chain, first_in};
ghost use Rattle.classes.specs.Hierarchy.{numbers_of, super_numbers, to_list};
ghost use Rattle.classes.specs.Marks.{is_marked};
ghost use Rattle.classes.specs.Places.{match_with_number};
ghost use Rattle.classes.specs.Searches.{AreAbove, AreUseful, IsClosed};
ghost use Rattle.classes.specs.Starts.{classes_from, name_of};

use crate::chain::superclass_name;
use crate::hierarchy::rank;
use crate::list::Classes;
use crate::lookup::numbered;
use crate::marks::{first_marked, is_any_marked, is_marked, mark, mark_all, mark_if};
use crate::ranked::Ranked;
use crate::walk::Look;
use jvms_program::number::ClassNumber;
use jvms_program::program::Class;
use shared_data::shared::Text;

/// The number of words that mark the classes of most programs, 4,096 at most.
const FEW_WORDS: usize = 64;

/// The number of words that mark the classes of any program.
const ALL_WORDS: usize = 16_384;

/// Marks a class and all classes above it.
fn mark_above(ranked: &Ranked, class: ClassNumber, reached: &mut [u64])
    requires class { class < length ranked.now.classes.now }
    requires room { length ranked.now.classes.now ≤ 64 * length reached.old }
    requires none { (n : ℕ) → is_marked reached.old n ≡ false }
    ensures { AreAbove ranked.now.classes.now ranked.now.ranks.now class reached.new }
{
    mark(reached, class);
    let mut left = rank(ranked.ranks, class) + 1;
    while left > 0 {
        left -= 1;
        let at = ranked.order[left];
        if is_marked(reached, at) {
            mark_all(reached, ranked.supers[at].as_slice());
        }
    }
}

/// Returns whether there is a match in the ancestry of a class. `useful` marks those above it in whose ancestry there
/// is one.
fn is_useful<L: Look>(ranked: &Ranked, class: ClassNumber, look: &L, useful: &[u64]) -> bool
    requires { class < length ranked.now.classes.now }
    ensures { (c : SeenClass) → slice_get ranked.now.classes.now class ≡ Some c
        → result ≡ (is_some (L.gives look.now class c)
        || list_any (is_marked useful.now) (super_numbers ranked.now.classes.now c)) }
{
    look.look(class, &ranked.classes[class]).is_some()
        || is_any_marked(useful, ranked.supers[class].as_slice())
}

/// Marks those of the reached classes in whose ancestry there is a match.
fn mark_useful<L: Look>(
    ranked: &Ranked,
    class: ClassNumber,
    look: &L,
    reached: &[u64],
    useful: &mut [u64],
)
    requires class { class < length ranked.now.classes.now }
    requires room { length ranked.now.classes.now ≤ 64 * length useful.old }
    requires reached { AreAbove ranked.now.classes.now ranked.now.ranks.now class reached.now }
    requires none { (n : ℕ) → is_marked useful.old n ≡ false }
    ensures { AreUseful ranked.now.classes.now
        (match_with_number ranked.now.classes.now (L.gives look.now)) reached.now useful.new }
{
    for place in 0..rank(ranked.ranks, class) + 1 {
        let at = ranked.order[place];
        if is_marked(reached, at) {
            let is = is_useful(ranked, at, look, useful);
            mark_if(useful, at, is);
        }
    }
}

/// Returns the first match in the ancestry of a class that was reached, by the marks.
fn first_above<L: Look>(
    ranked: &Ranked,
    class: ClassNumber,
    look: &L,
    reached: &[u64],
    useful: &[u64],
) -> Option<(usize, usize)>
    requires class { class < length ranked.now.classes.now }
    requires itself { is_marked reached.now class ≡ true }
    requires closed { IsClosed ranked.now.classes.now reached.now }
    requires useful { AreUseful ranked.now.classes.now
        (match_with_number ranked.now.classes.now (L.gives look.now)) reached.now useful.now }
    ensures { (name : List ℕ) → class_number ranked.now.classes.now name ≡ Some class
        → result ≡ first_in (match_with_number ranked.now.classes.now (L.gives look.now))
        (ancestry ranked.now.classes.now name) }
{
    let mut at = class;
    loop {
        if let Some(found) = look.look(at, &ranked.classes[at]) {
            return Some(found);
        }
        match first_marked(useful, ranked.supers[at].as_slice()) {
            Some(next) => at = next,
            None => return None,
        }
    }
}

/// Returns the first match in the ancestries of classes of these names, which were reached, by the marks.
fn first_of_names<L: Look>(
    program: &Classes,
    names: &[Text],
    look: &L,
    reached: &[u64],
    useful: &[u64],
) -> Option<(usize, usize)>
    requires reached { list_all (is_marked reached.now) (numbers_of program.now names.now) ≡ true }
    requires closed { IsClosed program.now reached.now }
    requires useful { AreUseful program.now
        (match_with_number program.now (L.gives look.now)) reached.now useful.now }
    ensures { result ≡ first_in (match_with_number program.now (L.gives look.now))
        (flat_map (ancestry program.now) names.now) }
{
    for name in names {
        if let Some(class) = program.class_number(name.as_slice()) {
            if is_marked(useful, class) {
                return first_above(&program.ranked(), class, look, reached, useful);
            }
        }
    }
    None
}

/// Marks a class with all classes above it, and those of them in whose ancestry there is a match.
fn mark_for<L: Look>(
    program: &Classes,
    class: ClassNumber,
    look: &L,
    reached: &mut [u64],
    useful: &mut [u64],
)
    requires class { class < length program.now }
    requires reached_room { length program.now ≤ 64 * length reached.old }
    requires useful_room { length program.now ≤ 64 * length useful.old }
    requires none_reached { (n : ℕ) → is_marked reached.old n ≡ false }
    requires none_useful { (n : ℕ) → is_marked useful.old n ≡ false }
    ensures itself { is_marked reached.new class ≡ true }
    ensures closed { IsClosed program.now reached.new }
    ensures useful { AreUseful program.now
        (match_with_number program.now (L.gives look.now)) reached.new useful.new }
{
    let ranked = program.ranked();
    mark_above(&ranked, class, reached);
    mark_useful(&ranked, class, look, reached, useful);
}

/// Returns the first match in the ancestries of the superinterfaces of a class, then of its superclass, and so on, by
/// the marks.
fn first_along<L: Look>(
    program: &Classes,
    name: &[u16],
    look: &L,
    reached: &[u64],
    useful: &[u64],
) -> Option<(usize, usize)>
    requires reached { list_all (is_marked reached.now)
        (to_list (class_number program.now name.now)) ≡ true }
    requires closed { IsClosed program.now reached.now }
    requires useful { AreUseful program.now
        (match_with_number program.now (L.gives look.now)) reached.now useful.now }
    ensures { result ≡ first_in (match_with_number program.now (L.gives look.now)) (flat_map
        (λ c. flat_map (ancestry program.now) c.interfaces) (chain program.now name.now)) }
{
    let mut left = program.classes().len();
    let mut name = name;
    while left > 0 {
        left -= 1;
        let Some((_, class)) = numbered(program, name) else {
            return None;
        };
        let interfaces = class.interfaces.as_slice();
        if let Some(found) = first_of_names(program, interfaces, look, reached, useful) {
            return Some(found);
        }
        let Some(superclass) = superclass_name(class) else {
            return None;
        };
        name = superclass;
    }
    None
}

/// The class where a search begins, and the way in which it continues.
#[derive(Clone, Copy)]
pub(crate) enum Start<'a> {
    /// The class of a name, followed by all classes above it.
    Class(&'a [u16]),
    /// The superinterfaces of the class of a name, each followed by all classes above it.
    Interfaces(&'a [u16]),
    /// The superinterfaces of the class of a name, followed by those of its superclass, and so on. Each is followed by
    /// all classes above it.
    InterfacesUp(&'a [u16]),
}

/// Returns the name of the class in which a search begins.
fn name_of(start: Start<'_>) -> &[u16]
    ensures { result.now ≡ name_of start.entry }
{
    match start {
        Start::Class(name) | Start::Interfaces(name) | Start::InterfacesUp(name) => name,
    }
}

/// Returns the first match from a start on, by marks that are large enough for the program.
fn first_from_with<L: Look>(
    program: &Classes,
    start: Start<'_>,
    look: &L,
    reached: &mut [u64],
    useful: &mut [u64],
) -> Option<(usize, usize)>
    requires reached_room { length program.now ≤ 64 * length reached.old }
    requires useful_room { length program.now ≤ 64 * length useful.old }
    requires none_reached { (n : ℕ) → is_marked reached.old n ≡ false }
    requires none_useful { (n : ℕ) → is_marked useful.old n ≡ false }
    ensures { result
        ≡ first_in (match_with_number program.now (L.gives look.now))
        (classes_from program.now start.entry) }
{
    let Some((number, class)) = numbered(program, name_of(start)) else {
        return None;
    };
    mark_for(program, number, look, reached, useful);
    match start {
        Start::Class(_) => first_above(&program.ranked(), number, look, reached, useful),
        Start::Interfaces(_) => {
            first_of_names(program, class.interfaces.as_slice(), look, reached, useful)
        }
        Start::InterfacesUp(name) => first_along(program, name, look, reached, useful),
    }
}

/// Returns the first match from a start on, in a program of at most 4,096 classes.
fn first_from_few<L: Look>(program: &Classes, start: Start<'_>, look: &L) -> Option<(usize, usize)>
    requires { length program.now ≤ 64 * FEW_WORDS }
    ensures { result
        ≡ first_in (match_with_number program.now (L.gives look.now))
        (classes_from program.now start.entry) }
{
    let mut reached = [0; FEW_WORDS];
    let mut useful = [0; FEW_WORDS];
    first_from_with(program, start, look, &mut reached, &mut useful)
}

/// Returns the first match from a start on, in any program.
#[inline(never)]
fn first_from_all<L: Look>(program: &Classes, start: Start<'_>, look: &L) -> Option<(usize, usize)>
    requires { length program.now ≤ 64 * ALL_WORDS }
    ensures { result
        ≡ first_in (match_with_number program.now (L.gives look.now))
        (classes_from program.now start.entry) }
{
    let mut reached = [0; ALL_WORDS];
    let mut useful = [0; ALL_WORDS];
    first_from_with(program, start, look, &mut reached, &mut useful)
}

/// Returns the first match from a start on.
pub(crate) fn first_from<L: Look>(
    program: &Classes,
    start: Start<'_>,
    look: &L,
) -> Option<(usize, usize)>
    ensures { result
        ≡ first_in (match_with_number program.now (L.gives look.now))
        (classes_from program.now start.entry) }
{
    program.few_classes_invariant();
    if program.classes().len() <= 64 * FEW_WORDS {
        first_from_few(program, start, look)
    } else {
        first_from_all(program, start, look)
    }
}

/// Returns the first match in the ancestry of a class.
pub(crate) fn first_in_ancestry<L: Look>(
    program: &Classes,
    name: &[u16],
    look: &L,
) -> Option<(usize, usize)>
    ensures { result
        ≡ first_in (match_with_number program.now (L.gives look.now))
        (ancestry program.now name.now) }
{
    let Some((number, class)) = numbered(program, name) else {
        return None;
    };
    match look.look(number, class) {
        Some(found) => Some(found),
        None => first_from(program, Start::Class(name), look),
    }
}
