//! Makes the program of a case.

use crate::stop::{Stop, refused};
use assembler::assemble;
use cases::{Case, Section};
use jasmin_reader::read;
use jvms_file::class_file::ClassFile;
use linker::{LinkFault, link};
use program::Program;
use std::alloc::{AllocError, Global};

/// The limits of a case's code that gives none.
const CODE_LIMITS: &str = ".limit stack 6\n.limit locals 3\n";

/// Returns the source of a class `M` with a static method `m`.
fn code_source(alloc: Global, code: &Section<'_>) -> Result<String, AllocError> {
    let limits = if code.lines.starts_with(".limit") {
        ""
    } else {
        CODE_LIMITS
    };
    let descriptor = code.words;
    let lines = code.lines;
    format!(in alloc; ".class M\n.method static m{descriptor}\n{limits}{lines}\n.end method\n")
}

/// Returns the class that a source is assembled to.
///
/// # Errors
///
/// Returns the text of the source's fault.
fn class_of(alloc: Global, text: &str) -> Result<ClassFile, Stop> {
    let source = match read(alloc, text) {
        Ok(source) => source,
        Err(fault) => return Err(refused(alloc, &fault)),
    };
    let assembled = assemble(alloc, &source);
    drop(source);
    match assembled {
        Ok(class) => Ok(class.into_class()),
        Err(fault) => Err(refused(alloc, &fault)),
    }
}

/// Appends the classes of a case's own sources.
fn put_sources(alloc: Global, classes: &mut Vec<ClassFile>, case: &Case<'_>) -> Result<(), Stop> {
    for section in case.sections.iter() {
        if section.kind == "source" {
            classes.push(class_of(alloc, section.lines)?)?;
        }
    }
    Ok(())
}

/// Appends the classes of the groups that a case names.
fn put_groups(
    alloc: Global,
    classes: &mut Vec<ClassFile>,
    cases: &[Case<'_>],
    case: &Case<'_>,
) -> Result<(), Stop> {
    for section in case.sections.iter() {
        if section.kind == "with" {
            for group in cases.iter() {
                if group.name == section.words {
                    put_sources(alloc, classes, group)?;
                }
            }
        }
    }
    Ok(())
}

/// Returns the place of a refused class in the list of class files.
fn place(fault: LinkFault) -> Option<usize> {
    match fault {
        LinkFault::BuiltInName { class }
        | LinkFault::RepeatedClass { class }
        | LinkFault::MissingSuper { class }
        | LinkFault::Circular { class }
        | LinkFault::SuperKind { class } => Some(class),
        LinkFault::Memory => None,
    }
}

/// Returns the stop of a program that isn't linked.
fn unlinked(alloc: Global, fault: LinkFault) -> Stop {
    let Some(class) = place(fault) else {
        return Stop::Memory;
    };
    match format!(in alloc; "{fault} of class {class}") {
        Ok(text) => Stop::Refused(text),
        Err(_) => Stop::Memory,
    }
}

/// Returns the program of a case: the classes of its groups, its own, and that of its code.
///
/// # Errors
///
/// Returns the text of the fault of a source or of linking.
pub fn program(alloc: Global, cases: &[Case<'_>], case: &Case<'_>) -> Result<Program, Stop> {
    let mut classes = Vec::new(alloc);
    put_groups(alloc, &mut classes, cases, case)?;
    put_sources(alloc, &mut classes, case)?;
    if let Some(code) = case.section("code") {
        let source = code_source(alloc, &code)?;
        classes.push(class_of(alloc, source.as_str())?)?;
    }
    match link(alloc, classes) {
        Ok(program) => Ok(program),
        Err(fault) => Err(unlinked(alloc, fault)),
    }
}
