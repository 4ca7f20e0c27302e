//! The opening of a machine.

ghost use Rattle.std.specs.Prelude.{◌≡◌, ◌++◌, ◌∷◌, [], map, slice_get, IfOk, None, OnOk, Some};
ghost use Rattle.jvms_machine.specs.Places.{places_of};
ghost use Rattle.jvms_machine.specs.Start.{argument_value, entry_arguments};
ghost use Rattle.jvms_machine.specs.Opening.{opening_heap, opening_initialisation, opening_static};
ghost use Rattle.jvms_machine.specs.State.{new_thread, static_fields};
ghost use Rattle.machine.specs.Started.{with_arguments, opened_machine};

use exec_ref::heap::{Heap, Statics};
use invoke::machine_parts::Parts;
use invoke::machine_thread::Thread;
use invoke::program::Program;
use jvms_machine::machine::{Argument, Entry, Limits};
use jvms_machine::state::Initialisation;
use jvms_machine::value::Value;
use jvms_program::number::MethodNumber;
use jvms_program::program::Class;
use monitors::{Monitors, Waiters};
use std::alloc::{AllocError, Global};

/// The reference of the argument of `main`, an array of no strings.
const NO_STRINGS: u32 = 4;

/// Appends the slots of an argument. A long has two.
fn put_argument(places: &mut Vec<Value>, argument: Argument) -> Result<(), AllocError>
    ensures { OnOk result
        (places.new.items ≡ places.old.items ++ places_of (argument_value argument ∷ [])) }
{
    match argument {
        Argument::Int(n) => places.push(Value::Int(n))?,
        Argument::Long(n) => {
            places.push(Value::Long(n))?;
            places.push(Value::Second)?;
        }
    }
    Ok(())
}

/// Returns the slots of all arguments.
#[tactic(auto, using(crate::proofs::EntryLaws::places_of_first))]
fn argument_places(alloc: Global, arguments: &[Argument]) -> Result<Vec<Value>, AllocError>
    ensures { IfOk result (λ places. places.items ≡ places_of (map argument_value arguments.now)) }
{
    let mut places = Vec::new(alloc);
    for argument in arguments {
        put_argument(&mut places, *argument)?;
    }
    Ok(places)
}

/// Returns the arguments of an entry's method, in slots.
fn arguments(alloc: Global, entry: &Entry) -> Result<Vec<Value>, AllocError>
    ensures { IfOk result (λ values. values.items ≡ entry_arguments entry.now) }
{
    match entry {
        Entry::Main { .. } => Ok(vec![in alloc; Value::Reference(NO_STRINGS)]?),
        Entry::Static { arguments, .. } => argument_places(alloc, arguments.as_slice()),
    }
}

/// Returns the state of a class's initialisation at the opening. Built-in classes are initialised, and no other class
/// is.
fn initialisation(program: &Program, number: usize, _class: &Class) -> Initialisation
    requires { slice_get program.now number ≡ Some _class.now }
    ensures { result ≡ opening_initialisation _class.now }
{
    if program.is_built_in(number) {
        Initialisation::Done
    } else {
        Initialisation::NotBegun
    }
}

/// Returns the state of each class's initialisation at the opening.
fn initialisations(alloc: Global, program: &Program) -> Result<Vec<Initialisation>, AllocError>
    ensures { IfOk result (λ marks. marks.items ≡ map opening_initialisation program.now) }
{
    let mut marks = Vec::new(alloc);
    for (number, class) in program.classes().iter().enumerate() {
        marks.push(initialisation(program, number, class))?;
    }
    Ok(marks)
}

/// The lists of a machine at its opening.
#[derive(Drop)]
struct OpeningLists<'p> {
    arguments: Vec<Value>,
    initialisations: Vec<Initialisation>,
    threads: Vec<Thread<'p>>,
}

/// Returns the lists of a machine at its opening. Thread 0 has no frame yet.
fn opening_lists<'p>(
    alloc: Global,
    program: &'p Program,
    entry: &Entry,
) -> Result<OpeningLists<'p>, AllocError>
    ensures arguments { IfOk result (λ l. l.arguments.items ≡ entry_arguments entry.now) }
    ensures initialisations { IfOk result
        (λ l. l.initialisations.items ≡ map opening_initialisation program.now) }
    ensures threads { IfOk result (λ l. l.threads.items ≡ new_thread None ∷ []) }
{
    Ok(OpeningLists {
        arguments: arguments(alloc, entry)?,
        initialisations: initialisations(alloc, program)?,
        threads: vec![in alloc; Thread::new(alloc, None)]?,
    })
}

/// Returns the heap and the static fields at the opening.
fn memory<'p>(alloc: Global, program: &'p Program) -> Result<(Heap<'p>, Statics<'p>), AllocError>
    ensures heap { IfOk result (λ m. m.0
        ≡ record { program = program.now; objects = opening_heap program.now; elements = 0 }) }
    ensures statics { IfOk result (λ m. m.1 ≡ record {
      program = program.now;
      fields = map opening_static (static_fields program.now);
    }) }
{
    let statics = Statics::opening(alloc, program)?;
    Ok((Heap::opening(alloc, program)?, statics))
}

/// Returns the parts of a machine at its opening.
#[tactic(auto, unfolding(jvms_machine::specs::Opening::opening))]
pub(crate) fn open<'p>(
    alloc: Global,
    program: &'p Program,
    limits: Limits,
    method: MethodNumber,
    entry: &Entry,
) -> Result<Parts<'p>, AllocError>
    ensures { IfOk result (λ m.
        m ≡ opened_machine program.now limits (with_arguments entry.now method)) }
{
    let lists = opening_lists(alloc, program, entry)?;
    let (heap, statics) = memory(alloc, program)?;
    Ok(Parts {
        alloc,
        limits,
        method,
        arguments: lists.arguments,
        heap,
        statics,
        initialisations: lists.initialisations,
        threads: lists.threads,
        monitors: Monitors::new(alloc),
        waiters: Waiters::new(alloc),
        output: Vec::new(alloc),
        result: None,
    })
}
