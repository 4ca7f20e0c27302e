//! Provides programs of Jasmin sources and their entries to other tests, so that none builds a class instruction by
//! instruction.

use assembler::assemble;
use fixtures::texts::units;
use jasmin_reader::read;
use linker::{ClassFile, link};
use machine::{Argument, Entry, Limits};
use program::Program;
use shared_data::items::Items;
use std::alloc::{AllocError, Global};
use std::test::Fail;

/// Limits of one thread. Other resources are limited to 10.
pub const LIMITS: Limits = Limits {
    objects: 10,
    elements: 10,
    threads: 1,
    frames: 10,
};

/// Assembles a source. Its fault is that of the test.
pub fn class_of(alloc: Global, text: &str) -> Result<ClassFile, Fail> {
    let source = read(alloc, text)?;
    let assembled = assemble(alloc, &source);
    drop(source);
    Ok(assembled?.into_class())
}

/// Links the program of these sources, in order. A fault of a source or of linking is that of the test.
pub fn program_of(alloc: Global, sources: &[&str]) -> Result<Program, Fail> {
    let mut files = Vec::new(alloc);
    for text in sources {
        files.push(class_of(alloc, *text)?)?;
    }
    Ok(link(alloc, files)?)
}

/// Returns the entry of a static method, with arguments.
pub fn entry(
    alloc: Global,
    class: &str,
    name: &str,
    descriptor: &str,
    arguments: &[Argument],
) -> Result<Entry, AllocError> {
    Ok(Entry::Static {
        class: units(alloc, class)?,
        name: units(alloc, name)?,
        descriptor: units(alloc, descriptor)?,
        arguments: Items::from_vec(Vec::from_slice(alloc, arguments)?),
    })
}
