//! Classes with their static fields, as the debugger writes them.

ghost use Rattle.std.specs.Prelude.{◌≡◌, ◌++◌, IfOk, OnOk, Some};
ghost use Rattle.std.specs.String.{string_bytes};
ghost use Rattle.machine_text.specs.Objects.{class_lines, initialisation_text};
ghost use Rattle.machine_text.specs.Objects.{class_text};

use crate::fields::{Keeper, put_fields};
use escapes::{put_counted, put_name};
use jvms_machine::state::Initialisation;
use jvms_program::number::ClassNumber;
use jvms_program::program::Class;
use machine::Machine;
use std::alloc::{AllocError, Global};

/// Appends the state of a class's initialisation.
fn put_initialisation(out: &mut String, initialisation: Initialisation) -> Result<(), AllocError>
    ensures { OnOk result (string_bytes out.new ≡ string_bytes out.old
        ++ initialisation_text initialisation) }
{
    match initialisation {
        Initialisation::NotBegun => out.push_str(" new"),
        Initialisation::InProgress { thread } => put_counted(out, " init by ", u64::from(thread)),
        Initialisation::Done => out.push_str(" done"),
        Initialisation::Erroneous => out.push_str(" erroneous"),
    }
}

/// Appends the lines of a class of this number.
fn put_class(
    out: &mut String,
    machine: &Machine,
    number: usize,
    class: &Class,
) -> Result<(), AllocError>
    ensures { OnOk result (string_bytes out.new ≡ string_bytes out.old
        ++ class_lines machine.now number (Some class.now)) }
{
    let initialisation = machine
        .initialisation(number)
        .unwrap_or(Initialisation::NotBegun);
    out.push_str("class ")?;
    put_name(out, class.name.as_slice())?;
    put_initialisation(out, initialisation)?;
    out.push_str("\n")?;
    put_fields(out, machine, Keeper::Classes, class)
}

/// Returns the lines of the class of a number, or an empty text if there is no such class.
pub fn class_text(
    alloc: Global,
    machine: &Machine,
    class: ClassNumber,
) -> Result<String, AllocError>
    ensures { IfOk result (λ s. string_bytes s ≡ class_text machine.now class) }
{
    let mut text = String::new(alloc);
    if let Some(found) = machine.program().class(class) {
        put_class(&mut text, machine, class, found)?;
    }
    Ok(text)
}
