//! The places that events access.

ghost use Rattle.std.specs.Prelude.{◌≡◌, refl, IfOk};
ghost use Rattle.std.specs.Cmp.{partial_equiv_from_equiv, partial_order_from_agreeing_total};
ghost use Rattle.std.specs.Cmp.Lexicographic.{slice_cmp};
ghost use Rattle.std.specs.Ordering.{as_partial_cmp, nat_cmp, ordering_then};
ghost use Rattle.accesses.specs.Places.{place_of};
ghost use Rattle.accesses.specs.Accesses.{OfThread, OfMonitor, OfVariable, same_place};
ghost use Rattle.velodrome.specs.Conflicts.{same_variable};
ghost use Rattle.accesses.specs.OnePlace.{keys_equiv};
ghost use Rattle.accesses.specs.Ordered.{cmp_is_same, field_of, first_of, kind_of, numbers_cmp, place_cmp, place_total, second_of};

use jvms_machine::machine::ThreadId;
use jvms_machine::trace::Variable;
use jvms_program::key::FieldKey;
use std::alloc::AllocError;
use std::cmp::Ordering;

/// A place that events access: a thread, an object's monitor, or a variable.
#[derive(Debug, Drop)]
pub enum Place {
    /// A thread: for its own events, and for those that start it or wait for its end.
    OfThread(ThreadId),
    /// The monitor of the object of a reference.
    OfMonitor(u32),
    /// A field, or an element of an array.
    OfVariable(Variable),
}

impl PartialEq for Place {
    ghost eq = { λ a b. same_place (place_of a) (place_of b) };

    ghost laws = { partial_equiv_from_equiv keys_equiv };

    fn eq(&self, other: &Place) -> bool {
        match self {
            Place::OfThread(thread) => is_thread(other, *thread),
            Place::OfMonitor(reference) => is_monitor(other, *reference),
            Place::OfVariable(variable) => is_variable(other, variable),
        }
    }
}

impl Eq for Place {
    ghost laws = { keys_equiv };
}

impl PartialOrd for Place {
    ghost partial_cmp = { as_partial_cmp place_cmp };

    ghost laws = { partial_order_from_agreeing_total place_cmp place_total
        (λ x y. refl) cmp_is_same };

    fn partial_cmp(&self, other: &Place) -> Option<Ordering> {
        Some(self.cmp(other))
    }
}

impl Ord for Place {
    ghost cmp = { place_cmp };

    ghost total = { place_total };

    ghost matches_partial_cmp = { λ x y. refl };

    ghost matches_eq = { cmp_is_same };

    fn cmp(&self, other: &Place) -> Ordering {
        let numbers = self.compared_by_numbers(other);
        let names = then_texts(numbers, self.name(), other.name());
        let classes = then_texts(names, self.class(), other.class());
        then_texts(classes, self.descriptor(), other.descriptor())
    }
}

impl Place {
    /// Returns a number for the kind of place.
    fn kind(&self) -> u8
        ensures { result ≡ kind_of self.now }
    {
        match self {
            Place::OfThread(_) => 0,
            Place::OfMonitor(_) => 1,
            Place::OfVariable(Variable::Instance { .. }) => 2,
            Place::OfVariable(Variable::Static { .. }) => 3,
            Place::OfVariable(Variable::Element { .. }) => 4,
        }
    }

    /// Returns the thread or the reference, or 0 if there is neither.
    fn first(&self) -> u32
        ensures { result ≡ first_of self.now }
    {
        match self {
            Place::OfThread(thread) => *thread,
            Place::OfMonitor(reference) => *reference,
            Place::OfVariable(Variable::Instance { reference, .. }) => *reference,
            Place::OfVariable(Variable::Static { .. }) => 0,
            Place::OfVariable(Variable::Element { reference, .. }) => *reference,
        }
    }

    /// Returns the index of the element, or 0 if it is no element.
    fn second(&self) -> u32
        ensures { result ≡ second_of self.now }
    {
        match self {
            Place::OfVariable(Variable::Element { index, .. }) => *index,
            _ => 0,
        }
    }

    /// Returns the name of the field, or an empty text if it is no field.
    fn name(&self) -> &[u16]
        ensures { result.now ≡ (field_of self.now).name }
    {
        match self {
            Place::OfVariable(Variable::Instance { field, .. }) => field.name.as_slice(),
            Place::OfVariable(Variable::Static { field }) => field.name.as_slice(),
            _ => &[],
        }
    }

    /// Returns the class of the field, or an empty text if it is no field.
    fn class(&self) -> &[u16]
        ensures { result.now ≡ (field_of self.now).class }
    {
        match self {
            Place::OfVariable(Variable::Instance { field, .. }) => field.class.as_slice(),
            Place::OfVariable(Variable::Static { field }) => field.class.as_slice(),
            _ => &[],
        }
    }

    /// Returns the descriptor of the field, or an empty text if it is no field.
    fn descriptor(&self) -> &[u16]
        ensures { result.now ≡ (field_of self.now).descriptor }
    {
        match self {
            Place::OfVariable(Variable::Instance { field, .. }) => field.descriptor.as_slice(),
            Place::OfVariable(Variable::Static { field }) => field.descriptor.as_slice(),
            _ => &[],
        }
    }

    /// Compares kinds and numbers.
    fn compared_by_numbers(&self, other: &Place) -> Ordering
        ensures { result ≡ numbers_cmp self.now other.now }
    {
        let kinds = self.kind().cmp(&other.kind());
        let firsts = self.first().cmp(&other.first());
        let seconds = self.second().cmp(&other.second());
        kinds.then(firsts).then(seconds)
    }
}

/// Returns the order, or the order of two texts if it is `Equal`.
fn then_texts<'x>(order: Ordering, one: &'x [u16], other: &'x [u16]) -> Ordering
    ensures { result ≡ ordering_then order (slice_cmp nat_cmp one.now other.now) }
{
    match order {
        Ordering::Equal => Ord::cmp(&one, &other),
        decided => decided,
    }
}

/// Decides whether a place is a thread.
pub fn is_thread(place: &Place, thread: ThreadId) -> bool
    ensures { result ≡ same_place (OfThread thread) (place_of place.now) }
{
    match place {
        Place::OfThread(other) => thread == *other,
        _ => false,
    }
}

/// Decides whether a place is the monitor of an object.
pub fn is_monitor(place: &Place, reference: u32) -> bool
    ensures { result ≡ same_place (OfMonitor reference) (place_of place.now) }
{
    match place {
        Place::OfMonitor(other) => reference == *other,
        _ => false,
    }
}

/// Decides whether a place is a variable.
pub fn is_variable(place: &Place, variable: &Variable) -> bool
    ensures { result ≡ same_place (OfVariable variable.now) (place_of place.now) }
{
    match place {
        Place::OfVariable(other) => variable == other,
        _ => false,
    }
}

/// Clones the key of a field. The clone shares its texts.
fn share_field(field: &FieldKey) -> Result<FieldKey, AllocError>
    ensures { IfOk result (λ k. k ≡ field.now) }
{
    Ok(FieldKey {
        class: field.class.share()?,
        name: field.name.share()?,
        descriptor: field.descriptor.share()?,
    })
}

/// Clones a variable. The clone shares its texts.
pub fn share_variable(variable: &Variable) -> Result<Variable, AllocError>
    ensures { IfOk result (λ v. v ≡ variable.now) }
{
    match variable {
        Variable::Instance { reference, field } => Ok(Variable::Instance {
            reference: *reference,
            field: share_field(field)?,
        }),
        Variable::Static { field } => Ok(Variable::Static {
            field: share_field(field)?,
        }),
        Variable::Element { reference, index } => Ok(Variable::Element {
            reference: *reference,
            index: *index,
        }),
    }
}

/// Clones a place. The clone shares its texts.
pub fn share_place(place: &Place) -> Result<Place, AllocError>
    ensures { IfOk result (λ p. p ≡ place.now) }
{
    match place {
        Place::OfThread(thread) => Ok(Place::OfThread(*thread)),
        Place::OfMonitor(reference) => Ok(Place::OfMonitor(*reference)),
        Place::OfVariable(variable) => Ok(Place::OfVariable(share_variable(variable)?)),
    }
}
