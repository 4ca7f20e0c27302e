//! Shows objects and classes.

use crate::texts;
use fixtures::texts::units;
use jvms_program::program::{Class, Field};
use machine::{FieldName, Initialisation, Machine};
use program::Program;
use std::alloc::{AllocError, Global};

/// The limit on the classes of an object's chain that are shown.
const MOST_CLASSES: usize = 20;

/// Returns the name with which the machine is queried for a field.
fn field_name<'a>(class: &'a Class, field: &'a Field) -> FieldName<'a> {
    FieldName {
        class: class.name.as_slice(),
        name: field.name.as_slice(),
        descriptor: field.descriptor.as_slice(),
    }
}

/// Appends a field and its value.
fn put_field(
    alloc: Global,
    line: &mut String,
    machine: &Machine<'_>,
    name: &FieldName<'_>,
    of: Option<u32>,
) -> Result<(), AllocError> {
    let value = match of {
        Some(reference) => machine.field(reference, name),
        None => machine.static_value(name),
    };
    let Some(value) = value else {
        return Ok(());
    };
    let class = texts::name(alloc, name.class)?;
    let named = texts::name(alloc, name.name)?;
    let value = texts::value(alloc, value)?;
    write!(
        line,
        " {}.{}={}",
        class.as_str(),
        named.as_str(),
        value.as_str()
    )
}

/// Appends the values of the fields that a class declares: the static ones, or those of the object `of`.
fn put_fields(
    alloc: Global,
    line: &mut String,
    machine: &Machine<'_>,
    class: &Class,
    of: Option<u32>,
) -> Result<(), AllocError> {
    for field in class.fields.as_slice() {
        put_field(alloc, line, machine, &field_name(class, field), of)?;
    }
    Ok(())
}

/// Returns the number of a class's superclass, if it has one.
fn superclass_of(program: &Program, number: usize) -> Option<usize> {
    let superclass = program.class(number)?.superclass.as_ref()?;
    program.class_number(superclass.as_slice())
}

/// Returns the numbers of a class and its superclasses, the topmost first.
fn chain(alloc: Global, program: &Program, name: &[u16]) -> Result<Vec<usize>, AllocError> {
    let mut chain = Vec::new(alloc);
    let mut at = program.class_number(name);
    for _ in 0..MOST_CLASSES {
        let Some(number) = at else {
            break;
        };
        chain.push(number)?;
        at = superclass_of(program, number);
    }
    chain.reverse();
    Ok(chain)
}

/// Appends the elements of an array.
fn put_elements(
    alloc: Global,
    line: &mut String,
    machine: &Machine<'_>,
    reference: u32,
    length: usize,
) -> Result<(), AllocError> {
    for index in 0..length {
        if let Some(value) = machine.element(reference, index) {
            let value = texts::value(alloc, value)?;
            write!(line, " {}", value.as_str())?;
        }
    }
    Ok(())
}

/// Appends the class of an object, with its fields or elements. Fields of the topmost class are first.
fn put_parts(
    alloc: Global,
    line: &mut String,
    machine: &Machine<'_>,
    reference: u32,
) -> Result<(), AllocError> {
    let units = machine.class_of(reference).unwrap_or(&[]);
    let class = texts::name(alloc, units)?;
    line.push_str(class.as_str())?;
    if let Some(length) = machine.array_length(reference) {
        return put_elements(alloc, line, machine, reference, length);
    }
    let program = machine.program();
    for number in chain(alloc, program, units)? {
        if let Some(class) = program.class(number) {
            put_fields(alloc, line, machine, class, Some(reference))?;
        }
    }
    Ok(())
}

/// Returns the text of an object: a string, a class object, or its class and its parts.
pub fn object(alloc: Global, machine: &Machine<'_>, reference: u32) -> Result<String, AllocError> {
    if let Some(units) = machine.text(reference) {
        let text = texts::name(alloc, units)?;
        return format!(in alloc; "text \"{}\"", text.as_str());
    }
    if let Some(name) = machine.class_object(reference) {
        let name = texts::name(alloc, name)?;
        return format!(in alloc; "class {}", name.as_str());
    }
    let mut line = String::new(alloc);
    put_parts(alloc, &mut line, machine, reference)?;
    Ok(line)
}

/// Returns the text of a class's state of initialisation.
fn initialisation(alloc: Global, how: Option<Initialisation>) -> Result<String, AllocError> {
    match how {
        None => String::from_str(alloc, "gone"),
        Some(Initialisation::NotBegun) => String::from_str(alloc, "new"),
        Some(Initialisation::InProgress { thread }) => format!(in alloc; "init by {thread}"),
        Some(Initialisation::Done) => String::from_str(alloc, "done"),
        Some(Initialisation::Erroneous) => String::from_str(alloc, "erroneous"),
    }
}

/// Returns a class's state of initialisation, and its static fields.
pub fn class(alloc: Global, machine: &Machine<'_>, name: &str) -> Result<String, AllocError> {
    let named = units(alloc, name)?;
    let Some(number) = machine.program().class_number(named.as_slice()) else {
        return String::from_str(alloc, "gone");
    };
    let mut line = initialisation(alloc, machine.initialisation(number))?;
    if let Some(class) = machine.program().class(number) {
        put_fields(alloc, &mut line, machine, class, None)?;
    }
    Ok(line)
}

/// Returns the owner of an object's monitor, and the number of its entries.
pub fn monitor(alloc: Global, machine: &Machine<'_>, reference: u32) -> Result<String, AllocError> {
    match machine.monitor(reference) {
        Some(hold) => format!(in alloc; "{} x{}", hold.owner, hold.count),
        None => String::from_str(alloc, "free"),
    }
}
