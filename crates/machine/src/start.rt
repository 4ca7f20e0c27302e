//! The start of a run.

ghost use Rattle.std.specs.Prelude.{◌≡◌};
ghost use Rattle.std.specs.Option.{option_map};
ghost use Rattle.jvms_machine.specs.Start.{start_of, takes_arguments, entry_reference, resolved_entry};
ghost use Rattle.exec_ref.specs.classes.MethodNames.{reference};
ghost use Rattle.machine.specs.Entries.{is_letter_of, has_letters, takes_all};
ghost use Rattle.machine.specs.Started.{with_arguments};

use descriptor::{is_initializer_name, is_method_descriptor};
use exec_ref::classes::MethodNames;
use invoke::program::Program;
use jvms_machine::machine::{Argument, Entry};
use jvms_program::number::MethodNumber;

/// The method name of an entry that names a class, `main`.
const MAIN: [u16; 4] = [109, 97, 105, 110];

/// Its descriptor, `([Ljava/lang/String;)V`.
const MAIN_DESCRIPTOR: [u16; 22] = [
    40, 91, 76, 106, 97, 118, 97, 47, 108, 97, 110, 103, 47, 83, 116, 114, 105, 110, 103, 59, 41,
    86,
];

/// The letter of a long.
const LONG: u16 = b'J' as u16;

/// Decides whether a unit is the letter of an argument's type: of an int, byte, char, short or boolean, or of a long.
fn is_letter_of(argument: Argument, unit: u16) -> bool
    ensures { result ≡ is_letter_of argument unit }
{
    match argument {
        Argument::Int(_) => matches!(unit, 73 | 66 | 67 | 83 | 90),
        Argument::Long(_) => unit == LONG,
    }
}

/// Decides whether a text begins with such a letter for each argument and then a closing parenthesis.
#[tactic(auto, unfolding(crate::specs::Entries::has_letters))]
fn has_letters(text: &[u16], arguments: &[Argument]) -> bool
    ensures { result ≡ has_letters text.now arguments.now }
{
    match (text, arguments) {
        ([], _) => false,
        ([unit, ..], []) => *unit == 41,
        ([unit, rest @ ..], [argument, arguments @ ..]) => {
            is_letter_of(*argument, *unit) && has_letters(rest, arguments)
        }
    }
}

/// Decides whether a descriptor's parameters are of the types of the arguments.
fn takes_all(descriptor: &[u16], arguments: &[Argument]) -> bool
    ensures { result ≡ takes_all descriptor.now arguments.now }
{
    match descriptor {
        [] => false,
        [_, behind @ ..] => is_method_descriptor(descriptor) && has_letters(behind, arguments),
    }
}

/// Decides whether the method that an entry names takes its arguments.
fn takes_arguments(entry: &Entry) -> bool
    ensures { result ≡ takes_arguments entry.now }
{
    match entry {
        Entry::Main { .. } => true,
        Entry::Static {
            descriptor,
            arguments,
            ..
        } => takes_all(descriptor.as_slice(), arguments.as_slice()),
    }
}

/// Returns the names of an entry's method in the form of a Methodref.
fn names(entry: &Entry) -> MethodNames<'_>
    ensures { reference result ≡ entry_reference entry.now }
{
    match entry {
        Entry::Main { class } => MethodNames {
            is_interface: false,
            class: class.as_slice(),
            name: &MAIN,
            descriptor: &MAIN_DESCRIPTOR,
        },
        Entry::Static {
            class,
            name,
            descriptor,
            ..
        } => MethodNames {
            is_interface: false,
            class: class.as_slice(),
            name: name.as_slice(),
            descriptor: descriptor.as_slice(),
        },
    }
}

/// Returns the method in which a run begins. It must resolve, be static, not be `<clinit>`, and take the arguments.
#[tactic(auto, unfolding(jvms_machine::specs::Start::start_of))]
pub(crate) fn start_of(program: &Program, entry: &Entry) -> Option<MethodNumber>
    ensures { option_map (with_arguments entry.now) result ≡ start_of program.now entry.now }
{
    if !takes_arguments(entry) {
        return None;
    }
    let Ok(number) = program.by_name().resolve_named(true, names(entry)) else {
        return None;
    };
    let method = program.method(number)?;
    if is_initializer_name(method.name.as_slice()) {
        None
    } else {
        Some(number)
    }
}
