//! Reads the entry and its arguments.

use crate::fault::WordsFault;
use descriptor::method_type;
use escapes::{NameSort, cut_twice, name_units};
use jvms_file::descriptor::{Element, FieldType, Primitive};
use jvms_machine::machine::{Argument, Entry};
use shared_data::items::Items;
use std::alloc::Global;

/// Reads a name of this sort.
fn name_of(alloc: Global, sort: NameSort, text: &[u8]) -> Result<Items<u16>, WordsFault> {
    let name = name_units(alloc, sort, text)?;
    name.ok_or(WordsFault::Words)
}

/// Parses an entry `C.m.D`, with the arguments in `arguments`, if there are any.
pub(crate) fn static_entry(
    alloc: Global,
    text: &str,
    arguments: Option<&str>,
) -> Result<Entry, WordsFault> {
    let parts = cut_twice(text.as_bytes(), b'.');
    let (class, name, descriptor) = parts.ok_or(WordsFault::Words)?;
    let descriptor = name_of(alloc, NameSort::MethodDescriptor, descriptor)?;
    let arguments = arguments_of(alloc, descriptor.as_slice(), arguments)?;
    Ok(Entry::Static {
        class: name_of(alloc, NameSort::Class, class)?,
        name: name_of(alloc, NameSort::Method, name)?,
        descriptor,
        arguments: Items::from_vec(arguments),
    })
}

/// Returns the entry of a main class, from the text of its name.
pub(crate) fn main_entry(alloc: Global, text: &str) -> Result<Entry, WordsFault> {
    let class = name_of(alloc, NameSort::Class, text.as_bytes())?;
    Ok(Entry::Main { class })
}

/// Parses a decimal number, maybe with a minus sign: of 64 bits for a long, else of 32. Returns `None` if it is no such
/// number.
fn argument_of(is_long: bool, text: &str) -> Option<Argument> {
    if text.starts_with('+') {
        return None;
    }
    if is_long {
        return Some(Argument::Long(text.parse::<i64>().ok()?));
    }
    Some(Argument::Int(text.parse::<i32>().ok()?))
}

/// Returns whether the parameter at this index is a long. Returns `false` if there is no such parameter.
fn is_long(parameters: &[FieldType], place: usize) -> bool {
    match parameters.get(place) {
        None => false,
        Some(t) => t.dimensions == 0 && matches!(t.element, Element::Primitive(Primitive::Long)),
    }
}

/// Parses arguments separated by commas, each by the parameter at its index. Without a text there are none.
fn arguments_of(
    alloc: Global,
    descriptor: &[u16],
    text: Option<&str>,
) -> Result<Vec<Argument>, WordsFault> {
    let mut arguments = Vec::new(alloc);
    let Some(text) = text else {
        return Ok(arguments);
    };
    let method = method_type(alloc, descriptor)?;
    for (place, part) in text.split(',').enumerate() {
        let is_long = is_long(method.parameters.as_slice(), place);
        arguments.push(argument_of(is_long, part).ok_or(WordsFault::Words)?)?;
    }
    Ok(arguments)
}

/// Reads a number that consists of decimal digits only.
pub(crate) fn natural_of(text: &str) -> Option<u64> {
    if text.starts_with('+') {
        return None;
    }
    text.parse::<u64>().ok()
}
