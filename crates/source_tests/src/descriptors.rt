//! Tests descriptors (JVMS 4.3).

use descriptor::{method_units, parameter_units, parse_method};
use fixtures::texts::units;
use shared_data::items::Items;
use std::alloc::{AllocError, Global};
use std::test::Fail;

/// Returns a descriptor with `count` longs, followed by a text.
fn longs(alloc: Global, count: usize, rest: &str) -> Result<Items<u16>, AllocError> {
    let mut text = String::from_str(alloc, "(")?;
    for _ in 0..count {
        text.push('J')?;
    }
    text.push_str(rest)?;
    units(alloc, text.as_str())
}

/// Returns the units of the parameters of a descriptor with `count` longs, read as a type.
fn read_units(alloc: Global, count: usize, rest: &str) -> Result<usize, Fail> {
    let text = longs(alloc, count, rest)?;
    Ok(parameter_units(&parse_method(alloc, text.as_slice())?))
}

/// Returns those units, counted without reading the type, if they are at most 255.
fn counted_units(alloc: Global, count: usize, rest: &str) -> Result<Option<usize>, AllocError> {
    let text = longs(alloc, count, rest)?;
    Ok(method_units(text.as_slice()))
}

#[test]
fn at_most_255_units(rt: HostRuntime) -> Result<(), Fail> {
    assert_eq!(rt; read_units(rt.alloc(), 127, "I)V")?, 255);
    assert_eq!(rt; counted_units(rt.alloc(), 127, "I)V")?, Some(255));
    assert_eq!(rt; counted_units(rt.alloc(), 128, ")V")?, None);
    Ok(())
}
